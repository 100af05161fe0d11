// Plans over the rows of k boxes: a row of any box from them. Cell i · β + l of a plan is for row l of box number i.
ghost use Rattle.std.specs.Prelude.{◌<◌, ◌≡◌, suc, ◌+◌, ◌-◌, ◌*◌, ◌/◌, ◌%◌, ◌≤◌, length};
ghost use Rattle.algebra.specs.Poly.{Same};
ghost use Rattle.algebra.specs.Cells.{entry};
ghost use Rattle.beehive.specs.Numbers.{alpha, beta, virtuals};
ghost use Rattle.coder.specs.Points.{listed, chosen_point};
ghost use Rattle.blocks.specs.Weights.{first_weight, second_weight, row_from, from_boxes};
ghost use Rattle.coder.specs.Plans.{FitsPlan, Made};
ghost use Rattle.blocks.specs.Weights.{pair_cell, grid_sum, points_used};

use crate::pairs::{pair_weight, weight_sum};
use beehive::Numbers;
use coder::{box_point, fill_points, fits_plan, lagrange_value};
use field::Field;
use refusal::Denial;

// The node at x, whose rows are made from the rows of k boxes. `points` has the points of the virtual nodes and then those of
// the boxes.
#[derive(Drop)]
struct Target<'a, F: Field> {
    numbers: &'a Numbers,
    points: &'a [F::Elem],
    x: F::Elem,
}

impl<F: Field> Target<'_, F> {
    // Fills the grid of the weights of pairs for row q: a row for each box, a column for each point.
    fn fill_pairs(&self, q: usize, row: &mut [F::Elem], pairs: &mut [F::Elem])
        requires row { length self.now.points.now ≡ suc (length row.old) }
        requires coefficient { q < length row.old }
        requires virtuals { virtuals self.now.numbers.now ≤ length self.now.points.now }
        requires grid { length pairs.old ≡ (length self.now.points.now - virtuals self.now.numbers.now) * length self.now.points.now }
        ensures { Same (length pairs.old) (entry F.Field.ops pairs.new) (pair_cell F.Field.ops (length row.old) (entry F.Field.ops self.now.points.now) (virtuals self.now.numbers.now) self.now.x q) }
    {
        let first = self.numbers.virtuals();
        let m = self.points.len();
        for (e, pair) in pairs.iter_mut().enumerate() {
            *pair = pair_weight::<F>(self.points, first + e / m, e % m, self.x, q, row);
        }
    }

    // The coefficient for row l of box number i in a row of the first part, from the grid of pairs.
    fn first_cell(&self, pairs: &[F::Elem], i: usize, l: usize) -> F::Elem
        requires { i * length self.now.points.now + length self.now.points.now ≤ length pairs.now }
        ensures { result ≡ grid_sum F.Field.ops (length self.now.points.now) (entry F.Field.ops self.now.points.now) (entry F.Field.ops pairs.now) (alpha self.now.numbers.now) i l }
    {
        if l < self.numbers.alpha() {
            weight_sum::<F>(self.points, pairs, i, l)
        } else {
            F::zero()
        }
    }

    // The plan for row q of the first part.
    fn first_row(&self, q: usize, plan: &mut [F::Elem], room: &mut [F::Elem])
        requires points { length self.now.points.now ≡ suc (alpha self.now.numbers.now) }
        requires row { q < alpha self.now.numbers.now }
        requires plan { length plan.old ≡ self.now.numbers.now.k * beta self.now.numbers.now }
        requires room { 96 ≤ length room.old }
        ensures { Same (length plan.old) (entry F.Field.ops plan.new)
            (λ e. first_weight F.Field.ops self.now.numbers.now (entry F.Field.ops self.now.points.now) self.now.x q (e / beta self.now.numbers.now) (e % beta self.now.numbers.now)) }
    {
        let beta = self.numbers.beta();
        let (row, rest) = room.split_at_mut(self.numbers.alpha());
        let (pairs, _) = rest.split_at_mut(self.numbers.needed() * self.points.len());
        self.fill_pairs(q, row, pairs);
        for (e, c) in plan.iter_mut().enumerate() {
            *c = self.first_cell(pairs, e / beta, e % beta);
        }
    }

    // The coefficient for row l of box number i in the plan for row r of the second part.
    fn second_cell(&self, r: usize, i: usize, l: usize, row: &mut [F::Elem]) -> F::Elem
        requires points { length self.now.points.now ≡ alpha self.now.numbers.now }
        requires row { length row.old ≡ alpha self.now.numbers.now }
        ensures { result ≡ second_weight F.Field.ops self.now.numbers.now (entry F.Field.ops self.now.points.now) self.now.x r i l }
    {
        if l == r && i < self.numbers.needed() - 1 {
            lagrange_value::<F>(self.points, self.numbers.virtuals() + i, self.x, row)
        } else {
            F::zero()
        }
    }

    // The plan for row r of the second part.
    fn second_row(&self, r: usize, plan: &mut [F::Elem], row: &mut [F::Elem])
        requires points { length self.now.points.now ≡ alpha self.now.numbers.now }
        requires row { length row.old ≡ alpha self.now.numbers.now }
        ensures { Same (length plan.old) (entry F.Field.ops plan.new)
            (λ e. second_weight F.Field.ops self.now.numbers.now (entry F.Field.ops self.now.points.now) self.now.x r (e / beta self.now.numbers.now) (e % beta self.now.numbers.now)) }
    {
        let beta = self.numbers.beta();
        for (e, c) in plan.iter_mut().enumerate() {
            *c = self.second_cell(r, e / beta, e % beta, row);
        }
    }

    // The plan for row `row`, over the points that count for it.
    fn fill(&self, row: usize, plan: &mut [F::Elem], room: &mut [F::Elem])
        requires points { length self.now.points.now ≡ points_used self.now.numbers.now row }
        requires plan { length plan.old ≡ self.now.numbers.now.k * beta self.now.numbers.now }
        requires room { 96 ≤ length room.old }
        ensures { Same (length plan.old) (entry F.Field.ops plan.new)
            (λ e. row_from F.Field.ops self.now.numbers.now (entry F.Field.ops self.now.points.now) self.now.x row (e / beta self.now.numbers.now) (e % beta self.now.numbers.now)) }
    {
        let alpha = self.numbers.alpha();
        if row < alpha {
            self.first_row(row, plan, room);
        } else {
            self.second_row(row, plan, &mut room[..alpha]);
        }
    }
}

// How many points count for a row.
fn point_count(numbers: &Numbers, row: usize) -> usize
    ensures { result ≡ points_used numbers.now row }
{
    if row < numbers.alpha() {
        numbers.alpha() + 1
    } else {
        numbers.alpha()
    }
}

// The plan for row `row` of box `to` from the rows of the k boxes of the list, in their order: k · β coefficients, that for
// row l of box number i at i · β + l. Rows and boxes are counted on past their ends, and a short list is followed by zeros.
// Memory that is too short is refused with `Length`, and then the plan is as it was. What room holds is lost.
pub fn read_plan<F: Field>(
    numbers: &Numbers,
    from: &[u16],
    to: u16,
    row: usize,
    plan: &mut [F::Elem],
    room: &mut [F::Elem],
) -> Result<(), Denial>
    ensures { Made F.Field.ops (FitsPlan (numbers.now.k * beta numbers.now) plan.old room.old)
        (numbers.now.k * beta numbers.now) (from_boxes F.Field.ops numbers.now (listed from.now) to row) plan.old plan.new result }
{
    let count = numbers.needed() * numbers.beta();
    fits_plan(count, plan.len(), room.len())?;
    let (points, rest) = room.split_at_mut(point_count(numbers, row));
    fill_points::<F>(numbers, from, points);
    let x = box_point::<F>(numbers, to);
    let target = Target::<F> { numbers, points, x };
    target.fill(row, &mut plan[..count], rest);
    Ok(())
}

// Boxes 1, 2, 3 and so on, as many as can be needed.
const FIRST: [u16; 8] = [1, 2, 3, 4, 5, 6, 7, 8];

// The plan for row `row` of box `to` from the rows of boxes 1 to k: its first B coefficients are for the rows of the data in
// their order, and the others, for the second part of box k, are zero. It is refused as that plan is.
pub fn load_plan<F: Field>(
    numbers: &Numbers,
    to: u16,
    row: usize,
    plan: &mut [F::Elem],
    room: &mut [F::Elem],
) -> Result<(), Denial>
    ensures { Made F.Field.ops (FitsPlan (numbers.now.k * beta numbers.now) plan.old room.old)
        (numbers.now.k * beta numbers.now) (from_boxes F.Field.ops numbers.now suc to row) plan.old plan.new result }
{
    read_plan::<F>(numbers, &FIRST, to, row, plan, room)
}
