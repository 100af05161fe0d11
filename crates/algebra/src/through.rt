// The polynomial of m coefficients through given values at m points: its coefficients, and its value at a further point.
// It is the sum of the values times the Lagrange polynomials, which are made one after the other in lent memory.
ghost use Rattle.std.specs.Prelude.{◌≡◌, min, length, MatchResult};
ghost use Rattle.algebra.specs.Poly.{Through};
ghost use Rattle.algebra.specs.Cells.{entry};
ghost use Rattle.algebra.specs.Solutions.{Fit, Unfit, SameFrom, Interpolated, ValueThrough};

use crate::polynomial::{add_scaled, set_zero, value};
use crate::solver::{Points, Unsolved};
use field::Field;

impl<F: Field> Points<'_, F> {
    // Makes f the polynomial through the values. What row holds is lost.
    fn combine(&self, values: &[F::Elem], f: &mut [F::Elem], row: &mut [F::Elem])
        requires values { length values.now ≡ length self.now.all.now }
        requires coefficients { length f.old ≡ length self.now.all.now }
        requires room { length row.old ≡ length self.now.all.now }
        ensures { Through F.Field.ops (length self.now.all.now) (entry F.Field.ops self.now.all.now) (entry F.Field.ops values.now) (entry F.Field.ops f.new) }
    {
        set_zero::<F>(f);
        for (i, y) in values.iter().enumerate() {
            self.lagrange(i, row);
            add_scaled::<F>(f, *y, row);
        }
    }

    // The value at x of the polynomial through the values. What row holds is lost.
    fn combined_value(&self, values: &[F::Elem], x: F::Elem, row: &mut [F::Elem]) -> F::Elem
        requires values { length values.now ≡ length self.now.all.now }
        requires room { length row.old ≡ length self.now.all.now }
        ensures { ValueThrough F.Field.ops self.now.all.now values.now x result }
    {
        let mut sum = F::zero();
        for (i, y) in values.iter().enumerate() {
            self.lagrange(i, row);
            sum = F::add(sum, F::mul(*y, value::<F>(row, x)));
        }
        sum
    }
}

// The points, if there is one value for each, room for as many elements, and no point twice.
fn judge<F: Field>(
    points: &[F::Elem],
    values: usize,
    room: usize,
) -> Result<Points<'_, F>, Unsolved>
    ensures { MatchResult result
        (λ p. (p.all.now ≡ points.now) × Fit F.Field.ops points.now values room)
        (λ e. Unfit F.Field.ops points.now values room e) }
{
    if values != points.len() {
        return Err(Unsolved::Values);
    }
    if room < points.len() {
        return Err(Unsolved::Room);
    }
    Points::of(points)
}

// Makes the first m coefficients of f those of the polynomial through the values at the m points. The first m elements of
// scratch are lost. On a refusal nothing changes.
pub fn interpolate<F: Field>(
    points: &[F::Elem],
    values: &[F::Elem],
    f: &mut [F::Elem],
    scratch: &mut [F::Elem],
) -> Result<(), Unsolved>
    ensures cases { MatchResult result
        (λ _. Fit F.Field.ops points.now (length values.now) (min (length f.old) (length scratch.old)))
        (λ e. Unfit F.Field.ops points.now (length values.now) (min (length f.old) (length scratch.old)) e) }
    ensures after { MatchResult result
        (λ _. Interpolated F.Field.ops points.now values.now f.old f.new)
        (λ _. f.new ≡ f.old) }
    ensures scratch { MatchResult result
        (λ _. SameFrom F.Field.ops (length points.now) scratch.old scratch.new)
        (λ _. scratch.new ≡ scratch.old) }
{
    let m = points.len();
    let points = judge::<F>(points, values.len(), f.len().min(scratch.len()))?;
    points.combine(values, &mut f[..m], &mut scratch[..m]);
    Ok(())
}

// The value at x of the polynomial of m coefficients through the values at the m points. The first m elements of scratch are
// lost. On a refusal nothing changes.
pub fn value_through<F: Field>(
    points: &[F::Elem],
    values: &[F::Elem],
    x: F::Elem,
    scratch: &mut [F::Elem],
) -> Result<F::Elem, Unsolved>
    ensures cases { MatchResult result
        (λ _. Fit F.Field.ops points.now (length values.now) (length scratch.old))
        (λ e. Unfit F.Field.ops points.now (length values.now) (length scratch.old) e) }
    ensures value { MatchResult result
        (λ v. ValueThrough F.Field.ops points.now values.now x v)
        (λ _. scratch.new ≡ scratch.old) }
    ensures scratch { SameFrom F.Field.ops (length points.now) scratch.old scratch.new }
{
    let m = points.len();
    let points = judge::<F>(points, values.len(), scratch.len())?;
    Ok(points.combined_value(values, x, &mut scratch[..m]))
}
