// m bits a symbol in lent bytes, the most significant first, the symbols following without gaps.
ghost use Rattle.std.specs.Prelude.{ℕ, ◌*◌, ◌/◌, length};
ghost use Rattle.shelf.specs.Bits.{symbol_at};

use crate::memory::Memory;
use crate::packed_bytes::{read_bytes, read_pairs, write_bytes, write_pairs};
use crate::packed_rows::{read_bits, wipe_row, write_bits};
use crate::shape::SymbolBits;

#[derive(Drop)]
pub struct Packed<'a> {
    pub(crate) bytes: &'a mut [u8],
}

// Two widths lie in whole bytes: the number of bits says at each call which loop it is, and no more than that.
impl Memory for Packed<'_> {
    ghost room = { λ s m. (8 * length s.bytes.now) / m };

    ghost symbol = { λ s m p. symbol_at s.bytes.now m p };

    fn holds(&self, m: SymbolBits, n: usize) -> bool {
        m.bit(n).div_ceil(8) <= self.bytes.len()
    }

    fn read(&self, m: SymbolBits, start: usize, out: &mut [u16]) {
        match m.count {
            8 => read_bytes(self.bytes, start, out),
            16 => read_pairs(self.bytes, start, out),
            _ => read_bits(self.bytes, m, start, out),
        }
    }

    fn write(&mut self, m: SymbolBits, start: usize, cells: &[u16]) {
        match m.count {
            8 => write_bytes(self.bytes, start, cells),
            16 => write_pairs(self.bytes, start, cells),
            _ => write_bits(self.bytes, m, start, cells),
        }
    }

    fn wipe(&mut self, m: SymbolBits, start: usize, n: usize) {
        wipe_row(self.bytes, m, start, n);
    }
}
