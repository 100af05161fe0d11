// Plans of a newcomer's rows from the segments that came to it: d from helpers, and t − 1 passed by the other newcomers.
ghost use Rattle.std.specs.Prelude.{◌<◌, ◌≡◌, ◌+◌, ◌≤◌, length};
ghost use Rattle.algebra.specs.Poly.{sum, Same};
ghost use Rattle.algebra.specs.Cells.{entry};
ghost use Rattle.beehive.specs.Numbers.{alpha, tail, node};
ghost use Rattle.beehive.specs.Points.{point, mu};
ghost use Rattle.coder.specs.Points.{listed, lagrange};
ghost use Rattle.repair.specs.Repair.{helper_share, pass_term, settle_first, settle_second, settle_weight};
ghost use Rattle.coder.specs.Plans.{FitsPlan, Made};

use crate::helped::Helped;
use algebra::value;
use beehive::{Numbers, inverted, raised};
use coder::{box_point, coefficient, fits_plan, lagrange_row, list_entry};
use field::Field;
use refusal::Denial;

// Fills the points of the boxes of a list.
fn fill_others<F: Field>(numbers: &Numbers, list: &[u16], points: &mut [F::Elem])
    ensures { Same (length points.old) (entry F.Field.ops points.new) (λ m. point F.Field.ops numbers.now (node numbers.now (listed list.now m))) }
{
    for (m, cell) in points.iter_mut().enumerate() {
        *cell = box_point::<F>(numbers, list_entry(list, m));
    }
}

// Fills coefficient q of the Lagrange polynomials of the points, one for each. What line holds is lost.
//
// A loop, and not a function that is called with a closure: after `fill_with(cells, f)` over `FnMut(usize)` a proof knows each
// cell as what f may give in some state, and no longer that this state holds the same points and a line of this length.
fn fill_weights<F: Field>(
    points: &[F::Elem],
    q: usize,
    weights: &mut [F::Elem],
    line: &mut [F::Elem],
)
    requires weights { length weights.old ≡ length points.now }
    requires coefficients { length line.old ≡ length points.now }
    ensures { Same (length points.now) (entry F.Field.ops weights.new) (λ m. lagrange F.Field.ops (length points.now) (entry F.Field.ops points.now) m q) }
{
    for (m, cell) in weights.iter_mut().enumerate() {
        lagrange_row::<F>(points, m, line);
        *cell = coefficient::<F>(line, q);
    }
}

impl<F: Field> Helped<'_, F> {
    // Coefficient k of factor · (lower half of line + μ of the box · upper half of line).
    fn joined_halves(&self, factor: F::Elem, line: &[F::Elem], k: usize) -> F::Elem
        requires { k < alpha self.now.numbers.now }
        ensures { result ≡ F.Field.ops.mul factor (F.Field.ops.add (entry F.Field.ops line.now k)
            (F.Field.ops.mul (mu F.Field.ops self.now.numbers.now (node self.now.numbers.now self.now.at)) (entry F.Field.ops line.now (alpha self.now.numbers.now + k)))) }
    {
        let lower = coefficient::<F>(line, k);
        let upper = coefficient::<F>(line, self.numbers.alpha() + k);
        F::mul(factor, F::add(lower, F::mul(self.own_mu, upper)))
    }

    // Fills the plan for a row of the first part: a pass gives nothing to it. What room holds is lost, of which it takes 2α
    // elements.
    fn fill_first(&self, row: usize, plan: &mut [F::Elem], room: &mut [F::Elem])
        requires row { row < alpha self.now.numbers.now }
        requires room { 16 ≤ length room.old }
        ensures { Same (length plan.old) (entry F.Field.ops plan.new) (settle_first F.Field.ops self.now.numbers.now self.now.at (listed self.now.helpers.now) row) }
    {
        let (line, _) = room.split_at_mut(2 * self.numbers.alpha());
        for (c, cell) in plan.iter_mut().enumerate() {
            *cell = if c < self.numbers.helpers() {
                self.fill_polynomial(c, line);
                self.joined_halves(self.mu_sum(c), line, row)
            } else {
                F::zero()
            };
        }
    }

    // Fills the coefficients of the segment from helper number i in the rows of the first part. What line holds is lost.
    fn fill_share(&self, i: usize, share: &mut [F::Elem], line: &mut [F::Elem])
        requires helper { i < self.now.numbers.now.d }
        requires rows { length share.old ≡ alpha self.now.numbers.now }
        requires coefficients { length line.old ≡ alpha self.now.numbers.now + alpha self.now.numbers.now }
        ensures { Same (alpha self.now.numbers.now) (entry F.Field.ops share.new) (helper_share F.Field.ops self.now.numbers.now self.now.at (listed self.now.helpers.now) i) }
    {
        self.fill_polynomial(i, line);
        let factor = self.mu_sum(i);
        for (k, cell) in share.iter_mut().enumerate() {
            *cell = self.joined_halves(factor, line, k);
        }
    }

    // What a share of the first part is to the passes of the boxes at the points, by the weights of these passes: the sum of
    // (μ + p^α)⁻¹ · share(p) · weight.
    fn pass_sum(&self, share: &[F::Elem], points: &[F::Elem], weights: &[F::Elem]) -> F::Elem
        requires rows { length share.now ≡ alpha self.now.numbers.now }
        requires weights { length weights.now ≡ length points.now }
        ensures { result ≡ sum F.Field.ops (length points.now)
            (λ m. pass_term F.Field.ops self.now.numbers.now self.now.at (entry F.Field.ops share.now) (entry F.Field.ops points.now m) (entry F.Field.ops weights.now m)) }
    {
        let mut total = F::zero();
        for (p, weight) in points.iter().zip(weights) {
            let power = raised::<F>(*p, self.numbers.alpha());
            let ratio = inverted::<F>(F::add(self.own_mu, power));
            let part = F::mul(ratio, value::<F>(share, *p));
            total = F::add(total, F::mul(part, *weight));
        }
        total
    }

    // Fills the plan for row q of the second part. What room holds is lost, of which it takes 3α + 3(t − 1) elements.
    fn fill_second(&self, others: &[u16], q: usize, plan: &mut [F::Elem], room: &mut [F::Elem])
        requires cells { length plan.old ≤ self.now.numbers.now.d + tail self.now.numbers.now }
        requires room { 33 ≤ length room.old }
        ensures { Same (length plan.old) (entry F.Field.ops plan.new) (settle_second F.Field.ops self.now.numbers.now self.now.at (listed self.now.helpers.now) (listed others.now) q) }
    {
        let alpha = self.numbers.alpha();
        let d = self.numbers.helpers();
        let t = self.numbers.tail();
        let (line, rest) = room.split_at_mut(2 * alpha);
        let (share, rest) = rest.split_at_mut(alpha);
        let (points, rest) = rest.split_at_mut(t);
        let (weights, rest) = rest.split_at_mut(t);
        let (short, _) = rest.split_at_mut(t);
        fill_others::<F>(self.numbers, others, points);
        fill_weights::<F>(points, q, weights, short);
        for (c, cell) in plan.iter_mut().enumerate() {
            *cell = if c < d {
                self.fill_share(c, share, line);
                self.pass_sum(share, points, weights)
            } else {
                coefficient::<F>(weights, c - d)
            };
        }
    }

    // Fills the plan for a row. What room holds is lost.
    fn fill_row(&self, others: &[u16], row: usize, plan: &mut [F::Elem], room: &mut [F::Elem])
        requires cells { length plan.old ≤ self.now.numbers.now.d + tail self.now.numbers.now }
        requires room { 33 ≤ length room.old }
        ensures { Same (length plan.old) (entry F.Field.ops plan.new) (settle_weight F.Field.ops self.now.numbers.now self.now.at (listed self.now.helpers.now) (listed others.now) row) }
    {
        let alpha = self.numbers.alpha();
        if row < alpha {
            self.fill_first(row, plan, room);
        } else {
            self.fill_second(others, row - alpha, plan, room);
        }
    }
}

// The plan for row `row` of box `at` from the segments that came to it: d coefficients for those that the helpers of the
// list sent, and t − 1 for those that the other newcomers of their list passed. Where there is no memory for it, it is refused
// for the length, and the plan is as it was. What room holds is lost.
pub fn settle_plan<F: Field>(
    numbers: &Numbers,
    at: u16,
    helpers: &[u16],
    others: &[u16],
    row: usize,
    plan: &mut [F::Elem],
    room: &mut [F::Elem],
) -> Result<(), Denial>
    ensures { Made F.Field.ops (FitsPlan (numbers.now.d + tail numbers.now) plan.old room.old) (numbers.now.d + tail numbers.now)
        (settle_weight F.Field.ops numbers.now at (listed helpers.now) (listed others.now) row) plan.old plan.new result }
{
    let count = numbers.helpers() + numbers.tail();
    fits_plan(count, plan.len(), room.len())?;
    let (points, rest) = room.split_at_mut(2 * numbers.alpha());
    let helped = Helped::<F>::new(numbers, at, helpers, points);
    helped.fill_row(others, row, &mut plan[..count], rest);
    Ok(())
}
