// A symbol in each 16-bit cell of lent memory.
ghost use Rattle.std.specs.Prelude.{ℕ, length, slice_index};

use crate::memory::Memory;
use crate::shape::SymbolBits;

#[derive(Drop)]
pub struct Words<'a> {
    pub(crate) cells: &'a mut [u16],
}

impl Memory for Words<'_> {
    ghost room = { λ s m. length s.cells.now };

    ghost symbol = { λ s m p. slice_index s.cells.now p };

    fn holds(&self, _m: SymbolBits, n: usize) -> bool {
        n <= self.cells.len()
    }

    fn read(&self, m: SymbolBits, start: usize, out: &mut [u16]) {
        let mask = (m.codes() - 1) as u16;
        let row = &self.cells[start..start + out.len()];
        // By number: after `out.iter_mut().zip(row)` nothing is known of out.
        for (j, x) in out.iter_mut().enumerate() {
            *x = row[j] & mask;
        }
    }

    fn write(&mut self, _m: SymbolBits, start: usize, cells: &[u16]) {
        self.cells[start..start + cells.len()].copy_from_slice(cells);
    }

    fn wipe(&mut self, _m: SymbolBits, start: usize, n: usize) {
        self.cells[start..start + n].fill(0);
    }
}
