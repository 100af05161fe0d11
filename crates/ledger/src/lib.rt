// The ledger: what every run of calls on a stripe must answer and leave behind. The definitions are in specs/; here are the lengths that
// the calls ask for, and the theorems.
#![tactic(auto)]

mod lengths;
mod theorems;

pub use lengths::{box_symbols, data_symbols, tray_cells};
pub use theorems::{
    any_encoder_alike, data_stay, known_sessions, one_encoder, only_load_and_settle_make_whole,
    parts_are_kept, reads_answer_the_data, segments_are_the_rules, settles_when_all_came,
    the_first_is_named, whole_boxes_are_read, whole_boxes_hold_the_code,
};
