// The Beehive code: the stripe's numbers, the points of its nodes, the code rule and the theorems on it.
#![tactic(auto)]

mod limits;
mod numbers;
mod points;
mod rows;
mod theorems;

pub use numbers::Numbers;
pub use points::{inverted, mu_of, node_of, point_of, raised, suits};
pub use rows::{first_entry, second_entry, segment_of};
pub use theorems::{
    any_k_fix_the_data, code_figures_stand, helpers_fix_the_first_part, one_lawful_list,
    one_lawful_list_of_rows, passes_fix_the_second_part, segments_align,
};
