// Finite fields of characteristic two: the interface with its laws, fields of polynomials through tables of
// logarithms and powers, and pairs over a field that can be extended.
#![tactic(auto)]

mod byte;
mod entries;
mod extended;
mod interface;
mod known;
mod nibble;
mod pair;
mod polynomial;
mod residue;
mod tabled;

pub use byte::{ByteTables, Bytes};
pub use interface::{Extensible, Field};
pub use known::{figures, figures_stand};
pub use nibble::{NibbleTables, Nibbles};
pub use pair::Pair;
pub use residue::Residue;
pub use tabled::{Tabled, Tables};

#[cfg(test)]
mod tests;
