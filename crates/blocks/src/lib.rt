// Plans over the rows of k boxes: the rows of every box from the data, and from any k boxes the rows of every box, and so
// the data.
#![tactic(auto)]

mod pairs;
mod plans;
mod theorems;

pub use plans::{load_plan, read_plan};
pub use theorems::{boxes_make_blocks, load_makes_blocks, read_makes_data};
