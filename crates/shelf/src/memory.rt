// Lent memory that holds symbols of m bits at places that are counted from 0.
// The module is not offered outside the crate: only the shelf calls it, and meets what it requires.
ghost use Rattle.std.specs.Prelude.{◌≡◌, ℕ, ◌+◌, ◌%◌, ◌^◌, ◌≤◌, true, length, nat_le, slice_index};
ghost use Rattle.shelf.specs.Calls.{all_below};
ghost use Rattle.shelf.specs.Stored.{tab, max_size, InRoom, Written};

use crate::shape::SymbolBits;

pub trait Memory {
    // How many symbols of m bits there is room for.
    ghost room: { Self → ℕ → ℕ };

    // What stands at a place of m bits: its low bits are the symbol.
    ghost symbol: { Self → ℕ → ℕ → ℕ };

    fn holds(&self, m: SymbolBits, n: usize) -> bool
        requires { n ≤ max_size }
        ensures { result ≡ nat_le n (room self.now m.count) };

    // Copies the symbols from `start` on into `out`.
    fn read(&self, m: SymbolBits, start: usize, out: &mut [u16])
        requires { InRoom start (length out.old) (room self.now m.count) }
        ensures { out.new ≡ tab (length out.old) (λ j. symbol self.now m.count (start + j) % 2 ^ m.count) };

    // Replaces the symbols from `start` on by `cells`.
    fn write(&mut self, m: SymbolBits, start: usize, cells: &[u16])
        requires { InRoom start (length cells.now) (room self.old m.count) × (all_below (2 ^ m.count) cells.now ≡ true) }
        ensures same { (k : ℕ) → room self.new k ≡ room self.old k }
        ensures after { Written (symbol self.old m.count) (symbol self.new m.count) start (length cells.now) (λ j. slice_index cells.now j) };

    // Makes the n symbols from `start` on zero.
    fn wipe(&mut self, m: SymbolBits, start: usize, n: usize)
        requires { InRoom start n (room self.old m.count) }
        ensures same { (k : ℕ) → room self.new k ≡ room self.old k }
        ensures after { Written (symbol self.old m.count) (symbol self.new m.count) start n (λ j. 0) };
}
