// Plans of a repair: the segments that helpers send and newcomers pass, and the rows that are settled from them.
#![tactic(auto)]

mod help;
mod helped;
mod settle;
mod theorems;

pub use help::{help_plan, pass_plan};
pub use settle::settle_plan;
pub use theorems::{help_makes_segments, pass_makes_segments, settle_makes_blocks};
