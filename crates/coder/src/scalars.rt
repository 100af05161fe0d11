// Single elements: powers, inverses, the points of boxes and of listed nodes.
ghost use Rattle.std.specs.Prelude.{◌≡◌, ◌≤◌, length, MatchResult};
ghost use Rattle.refusal.specs.declared.denial.Denial.TheVariants.{Length};
ghost use Rattle.algebra.specs.Poly.{Same};
ghost use Rattle.algebra.specs.Cells.{entry};
ghost use Rattle.beehive.specs.Numbers.{node};
ghost use Rattle.beehive.specs.Points.{point, mu};
ghost use Rattle.coder.specs.Points.{listed, chosen_point};

use beehive::{Numbers, mu_of, node_of, point_of};
use field::Field;
use refusal::Denial;

// The point of a box; a number that is no box has one too.
pub fn box_point<F: Field>(numbers: &Numbers, at: u16) -> F::Elem
    ensures { result ≡ point F.Field.ops numbers.now (node numbers.now at) }
{
    point_of::<F>(numbers, node_of(numbers, at))
}

// μ of a box.
pub fn box_mu<F: Field>(numbers: &Numbers, at: u16) -> F::Elem
    ensures { result ≡ mu F.Field.ops numbers.now (node numbers.now at) }
{
    mu_of::<F>(numbers, node_of(numbers, at))
}

// Entry i of a list of boxes, and 0 past its end.
pub fn list_entry(list: &[u16], i: usize) -> u16
    ensures { result ≡ listed list.now i }
{
    list.get(i).copied().unwrap_or(0)
}

// Coefficient k of a polynomial, and zero past its end.
pub fn coefficient<F: Field>(line: &[F::Elem], k: usize) -> F::Elem
    ensures { result ≡ entry F.Field.ops line.now k }
{
    line.get(k).copied().unwrap_or(F::zero())
}

// The point of number i among the virtual nodes and the boxes of the list.
fn listed_point<F: Field>(numbers: &Numbers, list: &[u16], i: usize) -> F::Elem
    ensures { result ≡ chosen_point F.Field.ops numbers.now (listed list.now) i }
{
    let x = numbers.virtuals();
    if i < x {
        F::element(i as u16 + 1)
    } else {
        box_point::<F>(numbers, list_entry(list, i - x))
    }
}

// Fills the points of the virtual nodes and the boxes of the list.
pub fn fill_points<F: Field>(numbers: &Numbers, list: &[u16], points: &mut [F::Elem])
    ensures { Same (length points.old) (entry F.Field.ops points.new) (chosen_point F.Field.ops numbers.now (listed list.now)) }
{
    for (i, p) in points.iter_mut().enumerate() {
        *p = listed_point::<F>(numbers, list, i);
    }
}

// The most coefficients that a plan has.
pub const PLAN_ELEMENTS: usize = 88;

// The elements that every plan can be worked out in, besides the plan. Plan and room go together wherever a plan is made: both are
// lent, since nothing is allocated.
pub const ROOM_ELEMENTS: usize = 128;

// Whether a plan of so many coefficients fits into the plan's memory, and the work on it into the room's: else `Length`.
pub fn fits_plan(count: usize, plan: usize, room: usize) -> Result<(), Denial>
    ensures { MatchResult result
        (λ _. (count ≤ plan) × (128 ≤ room))
        (λ e. (e ≡ Length) × ((count ≤ plan) × (128 ≤ room) → ⊥)) }
{
    if count <= plan && ROOM_ELEMENTS <= room {
        Ok(())
    } else {
        Err(Denial::Length)
    }
}
