// Shelves: where the rows of the boxes are kept.
#![tactic(auto)]

mod bits;
mod boxes;
mod checks;
mod copy;
mod interface;
mod lay;
mod memory;
mod order;
mod packed;
mod packed_bytes;
mod packed_rows;
mod packed_shelf;
mod shape;
mod store;
mod told;
mod word_shelf;
mod words;

pub use copy::copy_row;
pub use interface::Shelf;
pub use order::checks_stand;
pub use packed_shelf::PackedShelf;
pub use store::Store;
pub use word_shelf::WordShelf;
