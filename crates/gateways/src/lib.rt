// A batch record spread over gateways as values of a polynomial, and got back from those that answer: the smallest whole
// task of the fields and the solver.
#![tactic(auto)]

mod batch;

pub use batch::{Kept, Trouble, codes, elements, spread};
