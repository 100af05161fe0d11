// What a stripe computes, as coefficients and their application: every row that a call writes is a sum of coefficients
// times rows that it reads. `apply` adds one multiple of a row to another; here is also what all plans are made of: points
// of boxes, powers, inverses, Lagrange polynomials.
#![tactic(auto)]

mod polynomials;
mod rows;
mod scalars;
mod theorems;

pub use polynomials::{lagrange_row, lagrange_value};
pub use rows::apply;
pub use scalars::{
    PLAN_ELEMENTS, ROOM_ELEMENTS, box_mu, box_point, coefficient, fill_points, fits_plan,
    list_entry,
};
pub use theorems::{apply_sums_rows, plans_fit};
