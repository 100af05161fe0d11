// Polynomials over slices of coefficients, the lowest first. Each function goes for slices of any lengths.
ghost use Rattle.std.specs.Prelude.{◌≡◌, length};
ghost use Rattle.algebra.specs.Poly.{poly, unit, before, times, scaled, plus, Same};
ghost use Rattle.algebra.specs.Cells.{entry};

use field::Field;

// The value at x.
pub fn value<F: Field>(f: &[F::Elem], x: F::Elem) -> F::Elem
    ensures { result ≡ poly F.Field.ops (length f.now) (entry F.Field.ops f.now) x }
{
    f.iter()
        .rev()
        .fold(F::zero(), |sum, a| F::add(*a, F::mul(x, sum)))
}

// Makes f the polynomial 0.
pub fn set_zero<F: Field>(f: &mut [F::Elem])
    ensures { Same (length f.old) (entry F.Field.ops f.new) (λ k. F.Field.ops.zero) }
{
    for cell in f.iter_mut() {
        *cell = F::zero();
    }
}

// Makes f the polynomial 1.
pub fn set_one<F: Field>(f: &mut [F::Elem])
    ensures { Same (length f.old) (entry F.Field.ops f.new) (unit F.Field.ops 0) }
{
    set_zero::<F>(f);
    if !f.is_empty() {
        f[0] = F::one();
    }
}

// Multiplies f by X + p. The highest coefficient of the product, for which there is no room in f, is returned.
pub fn times_root<F: Field>(f: &mut [F::Elem], p: F::Elem) -> F::Elem
    ensures after { Same (length f.old) (entry F.Field.ops f.new) (times F.Field.ops p (entry F.Field.ops f.old)) }
    ensures value { result ≡ before F.Field.ops (entry F.Field.ops f.old) (length f.old) }
{
    let mut carry = F::zero();
    for a in f.iter_mut() {
        let old = *a;
        *a = F::add(carry, F::mul(p, old));
        carry = old;
    }
    carry
}

// Multiplies f by c.
pub fn scale<F: Field>(f: &mut [F::Elem], c: F::Elem)
    ensures { Same (length f.old) (entry F.Field.ops f.new) (scaled F.Field.ops c (entry F.Field.ops f.old)) }
{
    for coefficient in f.iter_mut() {
        *coefficient = F::mul(c, *coefficient);
    }
}

// Adds c times g to f: as far as f goes, and where g ends before it, as if zeros followed.
pub fn add_scaled<F: Field>(f: &mut [F::Elem], c: F::Elem, g: &[F::Elem])
    ensures { Same (length f.old) (entry F.Field.ops f.new)
        (plus F.Field.ops (entry F.Field.ops f.old) c (entry F.Field.ops g.now)) }
{
    let n = f.len().min(g.len());
    // The place in f by its number: after `f.iter_mut().zip(g)` nothing is known of f.
    for (i, b) in g[..n].iter().enumerate() {
        f[i] = F::add(f[i], F::mul(c, *b));
    }
}
