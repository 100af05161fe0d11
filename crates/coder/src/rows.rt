// The one loop over symbols: a row of 16-bit cells gets a multiple of another row added.
ghost use Rattle.std.specs.Prelude.{◌≡◌};
ghost use Rattle.coder.specs.Cells.{added, folded};

use field::Field;

// Adds c times row to out, where `times` multiplies by c.
fn add_each<F: Field, G: Fn(F::Elem, F::Elem) -> F::Elem>(
    c: F::Elem,
    times: G,
    row: &[u16],
    out: &mut [u16],
)
    requires callable { G.IsAlwaysCallable times }
    requires multiple { (x y : _) → G.post times c x y → y ≡ F.Field.ops.mul c x }
    ensures { out.new ≡ added F.Field.ops c row.now out.old }
{
    let n = row.len().min(out.len());
    // The cell of out by its number: after `out.iter_mut().zip(row)` nothing is known of out.
    for (q, r) in row[..n].iter().enumerate() {
        out[q] = F::code(F::add(F::element(out[q]), times(c, F::element(*r))));
    }
}

// Adds c times row to out, as far as the shorter of the two goes: cells are read by their low bits, and the cells of the
// result are codes. A coefficient of zero leaves out as it is.
pub fn apply<F: Field>(c: F::Elem, row: &[u16], out: &mut [u16])
    ensures { out.new ≡ folded F.Field.ops c row.now out.old }
{
    if F::equal(c, F::zero()) {
        return;
    }
    if F::equal(c, F::one()) {
        add_each::<F, _>(c, |_, x| x, row, out);
    } else {
        add_each::<F, _>(c, |c, x| F::mul(c, x), row, out);
    }
}
