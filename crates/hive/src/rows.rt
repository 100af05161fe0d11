// Rows of symbols, one after the other.
ghost use Rattle.std.specs.Prelude.{◌≤◌};

use crate::report::Spaced;
use beehive::Numbers;
use std::alloc::{AllocError, Global};
use std::fmt;
use std::slice::Chunks;

// Rows of `width` cells of 16 bits each.
#[derive(Drop, PartialEq, Eq)]
pub(crate) struct Rows {
    width: usize,
    cells: Vec<u16>,
    ghost some: { 1 ≤ width },
}

impl Rows {
    // No rows as yet, for those of a stripe.
    pub(crate) fn new(heap: Global, numbers: &Numbers) -> Rows {
        Rows {
            width: numbers.width(),
            cells: Vec::new(heap),
        }
    }

    pub(crate) fn rows(&self) -> Chunks<'_, u16>
        ensures { 1 ≤ result.size }
    {
        self.cells.chunks(self.width)
    }

    pub(crate) fn copied(&self) -> Result<Rows, AllocError> {
        Ok(Rows {
            width: self.width,
            cells: self.cells.clone()?,
        })
    }

    pub(crate) fn push_row(&mut self, row: &[u16]) -> Result<(), AllocError> {
        self.cells.extend_from_slice(row)
    }
}

// In a line, each row after a space and before one.
impl fmt::Display for Rows {
    fn fmt<W: fmt::Write>(&self, f: &mut fmt::Formatter<W>) -> fmt::Result {
        for row in self.rows() {
            write!(f, "{} ", Spaced(row))?;
        }
        Ok(())
    }
}
