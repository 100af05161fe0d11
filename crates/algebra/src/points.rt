// Lists of points: whether they are pairwise different, and the polynomials that are zero at all of them but one or two.
ghost use Rattle.std.specs.Prelude.{◌<◌, ◌≡◌, ℕ, true, false, length, ◌≢◌};
ghost use Rattle.algebra.specs.Poly.{Same, besides, factors};
ghost use Rattle.algebra.specs.Cells.{entry};
ghost use Rattle.algebra.specs.Solutions.{Distinct};

use crate::polynomial::{set_one, times_root};
use field::Field;

// Whether none of the points is x.
fn is_new<F: Field>(points: &[F::Elem], x: F::Elem) -> bool
    ensures yes { result ≡ true → (k : ℕ) → k < length points.now → entry F.Field.ops points.now k ≢ x }
    ensures no { result ≡ false → (k : ℕ) × (k < length points.now) × (entry F.Field.ops points.now k ≡ x) }
{
    // A loop, and not `any` or `all`: of these the compiler was measured to make one that takes up to three times the time.
    for p in points {
        if F::equal(*p, x) {
            return false;
        }
    }
    true
}

// Whether the points are pairwise different.
pub fn distinct<F: Field>(points: &[F::Elem]) -> bool
    ensures { (result ≡ true → Distinct F.Field.ops points.now)
        × (Distinct F.Field.ops points.now → result ≡ true) }
{
    points
        .iter()
        .enumerate()
        .all(|(n, p)| is_new::<F>(&points[..n], *p))
}

// Whether c is neither of the numbers i and j.
fn is_besides(i: usize, j: usize, c: usize) -> bool
    ensures { result ≡ besides i j c }
{
    c != i && c != j
}

// Makes f the product of X + p over all points p but those of the numbers i and j, which may be equal. Of a product that
// is longer than f it is the low part.
pub fn product_besides<F: Field>(points: &[F::Elem], i: usize, j: usize, f: &mut [F::Elem])
    ensures { Same (length f.old) (entry F.Field.ops f.new)
        (factors F.Field.ops (besides i j) (entry F.Field.ops points.now) (length points.now)) }
{
    set_one::<F>(f);
    for (c, p) in points.iter().enumerate() {
        if is_besides(i, j, c) {
            let _ = times_root::<F>(f, *p);
        }
    }
}
