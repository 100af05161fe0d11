// The one solver: the Lagrange polynomials of given points, which are the rows of the inverse of their Vandermonde matrix.
ghost use Rattle.std.specs.Prelude.{◌<◌, ◌≡◌, ◌*◌, ◌≤◌, length, MatchResult};
ghost use Rattle.algebra.specs.Poly.{OneAt, Apart};
ghost use Rattle.algebra.specs.Cells.{entry};
ghost use Rattle.algebra.specs.Solutions.{Distinct, Roomy, Denied, Solved};

use crate::grid::{Grid, fits};
use crate::points::{distinct, product_besides};
use crate::polynomial::{scale, value};
use field::Field;

// Why the solver refuses.
#[derive(Clone, Copy, PartialEq, Eq, Debug)]
pub enum Unsolved {
    // The memory that is lent is too small.
    Room,
    // There is not one value for each point.
    Values,
    // Two of the points are equal.
    Repeated,
}

// Points of which no two are equal.
#[derive(Drop)]
pub(crate) struct Points<'a, F: Field> {
    pub(crate) all: &'a [F::Elem],
    ghost distinct: { Apart (length all.now) (entry F.Field.ops all.now) },
}

impl<'a, F: Field> Points<'a, F> {
    // These points, if no two are equal; else `Repeated`.
    pub(crate) fn of(all: &'a [F::Elem]) -> Result<Points<'a, F>, Unsolved>
        ensures { MatchResult result
            (λ p. p.all.now ≡ all.now)
            (λ e. (e ≡ Unsolved.Repeated) × (Distinct F.Field.ops all.now → ⊥)) }
    {
        if distinct::<F>(all) {
            Ok(Points { all })
        } else {
            Err(Unsolved::Repeated)
        }
    }

    // Makes row the polynomial that is 1 at point i and 0 at the others: the product of X + p over the other points,
    // divided by its value at point i. `coder::lagrange_row` has these lines for any points and any row, and gives a formula: here
    // no formula is needed, since the points are distinct. The length of lent memory stands in each contract that passes it on: a
    // type for a slice of this length would say it again wherever one is cut.
    pub(crate) fn lagrange(&self, i: usize, row: &mut [F::Elem])
        requires number { i < length self.now.all.now }
        requires room { length row.old ≡ length self.now.all.now }
        ensures { OneAt F.Field.ops (length self.now.all.now) (entry F.Field.ops self.now.all.now) i (entry F.Field.ops row.new) }
    {
        let points = self.all;
        product_besides::<F>(points, i, i, row);
        let height = value::<F>(row, points[i]);
        if let Some(inverse) = F::inverse(height) {
            scale::<F>(row, inverse);
        }
    }

    // Fills the rows of a grid of cols columns, one for each point.
    fn fill(&self, cols: usize, cells: &mut [F::Elem])
        requires wide { length self.now.all.now ≤ cols }
        requires room { length self.now.all.now * cols ≤ length cells.old }
        ensures { Solved F.Field.ops self.now.all.now cols cells.old cells.new }
    {
        let m = self.all.len();
        // By number: `chunks_mut` asks for a column even where there are no points, and then nothing is known of the cells.
        for i in 0..m {
            let start = i * cols;
            self.lagrange(i, &mut cells[start..start + m]);
        }
    }
}

// Fills the grid with the coefficients of the Lagrange polynomials of the points, the lowest first: row i has the value 1
// at point i and 0 at the others. On a refusal nothing changes.
pub fn solve<F: Field>(points: &[F::Elem], grid: &mut Grid<F::Elem>) -> Result<(), Unsolved>
    ensures cases { MatchResult result
        (λ _. Roomy (length points.now) grid.old × Distinct F.Field.ops points.now)
        (λ e. Denied F.Field.ops points.now grid.old e) }
    ensures after { MatchResult result
        (λ _. Solved F.Field.ops points.now grid.old.cols grid.old.cells.now grid.new.cells.now)
        (λ _. grid.new.cells.now ≡ grid.old.cells.now) }
    ensures same { (grid.new.rows ≡ grid.old.rows) × (grid.new.cols ≡ grid.old.cols) }
    ensures lent { grid.new.cells.ghost_name ≡ grid.old.cells.ghost_name }
{
    let m = points.len();
    if m > grid.rows || m > grid.cols || !fits(grid.rows, grid.cols, grid.cells.len()) {
        return Err(Unsolved::Room);
    }
    let points = Points::<F>::of(points)?;
    points.fill(grid.cols, grid.cells);
    Ok(())
}
