// The weights of pairs of nodes.
ghost use Rattle.std.specs.Prelude.{◌<◌, ◌≡◌, suc, ◌+◌, ◌*◌, ◌≤◌, length};
ghost use Rattle.algebra.specs.Poly.{sum, power, poly};
ghost use Rattle.algebra.specs.Cells.{entry};
ghost use Rattle.blocks.specs.Weights.{others, share_weight};

use algebra::{product_besides, value};
use beehive::{inverted, raised};
use field::Field;

// (xⁿ + qⁿ) / (pⁿ + qⁿ)
fn power_ratio<F: Field>(x: F::Elem, p: F::Elem, q: F::Elem, n: usize) -> F::Elem
    ensures { result ≡ F.Field.ops.mul (F.Field.ops.add (power F.Field.ops x n) (power F.Field.ops q n)) (F.Field.ops.inv (F.Field.ops.add (power F.Field.ops p n) (power F.Field.ops q n))) }
{
    let mu = raised::<F>(q, n);
    F::mul(
        F::add(raised::<F>(x, n), mu),
        inverted::<F>(F::add(raised::<F>(p, n), mu)),
    )
}

// v(x) / (v(p) · v(q))
fn value_ratio<F: Field>(v: &[F::Elem], x: F::Elem, p: F::Elem, q: F::Elem) -> F::Elem
    ensures { result ≡ F.Field.ops.mul (poly F.Field.ops (length v.now) (entry F.Field.ops v.now) x)
        (F.Field.ops.inv (F.Field.ops.mul (poly F.Field.ops (length v.now) (entry F.Field.ops v.now) p) (poly F.Field.ops (length v.now) (entry F.Field.ops v.now) q))) }
{
    let heights = F::mul(value::<F>(v, p), value::<F>(v, q));
    F::mul(value::<F>(v, x), inverted::<F>(heights))
}

// Coefficient q of what the pair of the nodes i and j gives the node at x. What row holds is lost.
pub(crate) fn pair_weight<F: Field>(
    points: &[F::Elem],
    i: usize,
    j: usize,
    x: F::Elem,
    q: usize,
    row: &mut [F::Elem],
) -> F::Elem
    requires first { i < length points.now }
    requires second { j < length points.now }
    requires row { length points.now ≡ suc (length row.old) }
    requires coefficient { q < length row.old }
    ensures { result ≡ F.Field.ops.mul (share_weight F.Field.ops (length row.old) (entry F.Field.ops points.now) i j x)
        (others F.Field.ops (length row.old) (entry F.Field.ops points.now) i j q) }
{
    product_besides::<F>(points, i, j, row);
    let a = points[i];
    let b = points[j];
    let powers = power_ratio::<F>(x, a, b, row.len());
    let values = value_ratio::<F>(row, x, a, b);
    F::mul(F::mul(powers, values), row[q])
}

// The sum of the weights in row i of a grid of pairs, each times its node's point to the power l.
pub(crate) fn weight_sum<F: Field>(
    points: &[F::Elem],
    pairs: &[F::Elem],
    i: usize,
    l: usize,
) -> F::Elem
    requires { i * length points.now + length points.now ≤ length pairs.now }
    ensures { result ≡ sum F.Field.ops (length points.now) (λ j. F.Field.ops.mul (entry F.Field.ops pairs.now (i * length points.now + j)) (power F.Field.ops (entry F.Field.ops points.now j) l)) }
{
    let start = i * points.len();
    let mut total = F::zero();
    for (p, w) in points.iter().zip(&pairs[start..start + points.len()]) {
        total = F::add(total, F::mul(*w, raised::<F>(*p, l)));
    }
    total
}
