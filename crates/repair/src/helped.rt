// A newcomer with its helpers: what the segments that these sent are put together over.
ghost use Rattle.std.specs.Prelude.{◌<◌, ◌≡◌, ◌+◌, length};
ghost use Rattle.algebra.specs.Poly.{Same};
ghost use Rattle.algebra.specs.Cells.{entry};
ghost use Rattle.beehive.specs.Numbers.{alpha, node};
ghost use Rattle.beehive.specs.Points.{mu};
ghost use Rattle.coder.specs.Points.{listed, chosen_point};
ghost use Rattle.repair.specs.Repair.{helper_poly};

use beehive::Numbers;
use coder::{box_mu, fill_points, lagrange_row, list_entry};
use field::Field;

// Box `at` and the list of its helpers, with μ of the box and the points of the virtual nodes and of these helpers.
#[derive(Drop)]
pub(crate) struct Helped<'a, F: Field> {
    pub(crate) numbers: &'a Numbers,
    pub(crate) at: u16,
    pub(crate) helpers: &'a [u16],
    pub(crate) own_mu: F::Elem,
    pub(crate) points: &'a [F::Elem],
    ghost own_mu_is: { own_mu ≡ mu F.Field.ops numbers.now (node numbers.now at) },
    ghost count: { length points.now ≡ alpha numbers.now + alpha numbers.now },
    ghost same: { Same (alpha numbers.now + alpha numbers.now) (entry F.Field.ops points.now) (chosen_point F.Field.ops numbers.now (listed helpers.now)) },
}

impl<'a, F: Field> Helped<'a, F> {
    // The points are filled into the lent memory.
    pub(crate) fn new(
        numbers: &'a Numbers,
        at: u16,
        helpers: &'a [u16],
        points: &'a mut [F::Elem],
    ) -> Self
        requires { length points.old ≡ alpha numbers.now + alpha numbers.now }
        ensures numbers { result.numbers.now ≡ numbers.now }
        ensures at { result.at ≡ at }
        ensures helpers { result.helpers.now ≡ helpers.now }
    {
        fill_points::<F>(numbers, helpers, points);
        Helped {
            numbers,
            at,
            helpers,
            own_mu: box_mu::<F>(numbers, at),
            points,
        }
    }

    // μ(h) + μ(at) for the helper h of number i.
    pub(crate) fn mu_sum(&self, i: usize) -> F::Elem
        ensures { result ≡ F.Field.ops.add (mu F.Field.ops self.now.numbers.now (node self.now.numbers.now (listed self.now.helpers.now i)))
            (mu F.Field.ops self.now.numbers.now (node self.now.numbers.now self.now.at)) }
    {
        let helper = box_mu::<F>(self.numbers, list_entry(self.helpers, i));
        F::add(helper, self.own_mu)
    }

    // Makes line the Lagrange polynomial of helper number i.
    pub(crate) fn fill_polynomial(&self, i: usize, line: &mut [F::Elem])
        requires helper { i < self.now.numbers.now.d }
        requires coefficients { length line.old ≡ alpha self.now.numbers.now + alpha self.now.numbers.now }
        ensures { Same (alpha self.now.numbers.now + alpha self.now.numbers.now) (entry F.Field.ops line.new)
            (helper_poly F.Field.ops self.now.numbers.now (listed self.now.helpers.now) i) }
    {
        lagrange_row::<F>(self.points, self.numbers.virtuals() + i, line);
    }
}
