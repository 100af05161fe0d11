// Polynomials over any field: a grid of lent elements, arithmetic on coefficients, and the one solver, which finds the
// Lagrange polynomials of given points and so the polynomial through given values.
#![tactic(auto)]

mod grid;
mod points;
mod polynomial;
mod solver;
mod theorems;
mod through;

pub use grid::{Grid, fits};
pub use points::{distinct, product_besides};
pub use polynomial::{add_scaled, scale, set_one, set_zero, times_root, value};
pub use solver::{Unsolved, solve};
pub use theorems::{
    interpolation_stands, polynomial_exists, polynomial_unique, root_count_stands,
    vandermonde_inverted,
};
pub use through::{interpolate, value_through};
