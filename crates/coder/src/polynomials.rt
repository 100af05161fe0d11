// Lagrange polynomials of given points, in slices.
ghost use Rattle.std.specs.Prelude.{◌≡◌, length};
ghost use Rattle.algebra.specs.Poly.{poly, Same};
ghost use Rattle.algebra.specs.Cells.{entry};
ghost use Rattle.coder.specs.Points.{cut_lagrange};

use crate::scalars::coefficient;
use algebra::{product_besides, scale, value};
use beehive::inverted;
use field::Field;

// Makes row the Lagrange polynomial of point i: the product of X + p over the other points, divided by its value at point i.
// Of a polynomial that is longer than row it is the low part.
pub fn lagrange_row<F: Field>(points: &[F::Elem], i: usize, row: &mut [F::Elem])
    ensures { Same (length row.old) (entry F.Field.ops row.new) (cut_lagrange F.Field.ops (length row.old) (length points.now) (entry F.Field.ops points.now) i) }
{
    product_besides::<F>(points, i, i, row);
    let height = value::<F>(row, coefficient::<F>(points, i));
    scale::<F>(row, inverted::<F>(height));
}

// Its value at x. What row holds is lost.
pub fn lagrange_value<F: Field>(
    points: &[F::Elem],
    i: usize,
    x: F::Elem,
    row: &mut [F::Elem],
) -> F::Elem
    ensures { result ≡ poly F.Field.ops (length row.old) (cut_lagrange F.Field.ops (length row.old) (length points.now) (entry F.Field.ops points.now) i) x }
{
    lagrange_row::<F>(points, i, row);
    value::<F>(row, x)
}
