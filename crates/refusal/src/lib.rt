// The refusals that every layer answers, with the number and the box that callers are told.
#![tactic(auto)]

mod denial;

pub use denial::Denial;
