// Plans of segments: what a helper sends about a newcomer, and what a newcomer passes to another.
ghost use Rattle.std.specs.Prelude.{◌-◌, ◌≡◌, ◌≤◌, cond, length, nat_lt};
ghost use Rattle.algebra.specs.Poly.{power, Same};
ghost use Rattle.algebra.specs.Cells.{entry};
ghost use Rattle.beehive.specs.Numbers.{alpha, beta, node};
ghost use Rattle.beehive.specs.Points.{point, mu};
ghost use Rattle.coder.specs.Points.{listed};
ghost use Rattle.repair.specs.Repair.{help_weight, pass_weight};
ghost use Rattle.coder.specs.Plans.{FitsPlan, Made};

use crate::helped::Helped;
use algebra::value;
use beehive::{Numbers, inverted, raised};
use coder::{box_mu, box_point, fits_plan};
use field::Field;
use refusal::Denial;

// The inverse of μ(i) + μ(j).
fn mu_inverse<F: Field>(numbers: &Numbers, i: u16, j: u16) -> F::Elem
    ensures { result ≡ F.Field.ops.inv (F.Field.ops.add (mu F.Field.ops numbers.now (node numbers.now i)) (mu F.Field.ops numbers.now (node numbers.now j))) }
{
    inverted::<F>(F::add(box_mu::<F>(numbers, i), box_mu::<F>(numbers, j)))
}

// The coefficient of row r in the segment from box i about box j, where ratio is the inverse of μ(i) + μ(j).
fn help_cell<F: Field>(numbers: &Numbers, j: u16, ratio: F::Elem, r: usize) -> F::Elem
    ensures { result ≡ cond (nat_lt r (alpha numbers.now)) (F.Field.ops.mul ratio (power F.Field.ops (point F.Field.ops numbers.now (node numbers.now j)) r))
        (power F.Field.ops (point F.Field.ops numbers.now (node numbers.now j)) (r - alpha numbers.now)) }
{
    let p = box_point::<F>(numbers, j);
    if r < numbers.alpha() {
        F::mul(ratio, raised::<F>(p, r))
    } else {
        raised::<F>(p, r - numbers.alpha())
    }
}

// The plan of the segment from box `from` about box `about`: β coefficients, for the rows of box `from`. Where there is no
// memory for it, it is refused for the length, and the plan is as it was.
pub fn help_plan<F: Field>(
    numbers: &Numbers,
    from: u16,
    about: u16,
    plan: &mut [F::Elem],
) -> Result<(), Denial>
    ensures { Made F.Field.ops (beta numbers.now ≤ length plan.old) (beta numbers.now)
        (help_weight F.Field.ops numbers.now from about) plan.old plan.new result }
{
    let count = numbers.beta();
    if plan.len() < count {
        return Err(Denial::Length);
    }
    let ratio = mu_inverse::<F>(numbers, from, about);
    let cells = &mut plan[..count];
    for (r, cell) in cells.iter_mut().enumerate() {
        *cell = help_cell::<F>(numbers, about, ratio, r);
    }
    Ok(())
}

impl<F: Field> Helped<'_, F> {
    // Fills the plan of what the box passes to box e. What room holds is lost, of which it takes 2α elements.
    fn fill_pass(&self, e: u16, plan: &mut [F::Elem], room: &mut [F::Elem])
        requires cells { length plan.old ≤ self.now.numbers.now.d }
        requires room { 16 ≤ length room.old }
        ensures { Same (length plan.old) (entry F.Field.ops plan.new) (pass_weight F.Field.ops self.now.numbers.now self.now.at e (listed self.now.helpers.now)) }
    {
        let (line, _) = room.split_at_mut(2 * self.numbers.alpha());
        let ratio = mu_inverse::<F>(self.numbers, e, self.at);
        let point = box_point::<F>(self.numbers, e);
        for (i, cell) in plan.iter_mut().enumerate() {
            self.fill_polynomial(i, line);
            *cell = F::mul(ratio, F::mul(self.mu_sum(i), value::<F>(line, point)));
        }
    }
}

// The plan of what box `from` passes to box `to`, the segment from `to` about `from`: d coefficients, for the segments that
// the helpers of the list sent to box `from`. Where there is no memory for it, it is refused for the length, and the plan is
// as it was. What room holds is lost.
pub fn pass_plan<F: Field>(
    numbers: &Numbers,
    from: u16,
    to: u16,
    helpers: &[u16],
    plan: &mut [F::Elem],
    room: &mut [F::Elem],
) -> Result<(), Denial>
    ensures { Made F.Field.ops (FitsPlan numbers.now.d plan.old room.old) numbers.now.d
        (pass_weight F.Field.ops numbers.now from to (listed helpers.now)) plan.old plan.new result }
{
    let count = numbers.helpers();
    fits_plan(count, plan.len(), room.len())?;
    let (points, rest) = room.split_at_mut(2 * numbers.alpha());
    let helped = Helped::<F>::new(numbers, from, helpers, points);
    helped.fill_pass(to, &mut plan[..count], rest);
    Ok(())
}
