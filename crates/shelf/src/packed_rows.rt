// Rows of symbols of any number of bits, read and written in bytes one symbol after another: the bits of a symbol begin
// anywhere in a byte, so that a place is reckoned from its number.
ghost use Rattle.std.specs.Prelude.{◌≡◌, ℕ, ◌+◌, ◌-◌, ◌*◌, ◌/◌, ◌%◌, ◌^◌, ◌≤◌, true, length, slice_index};
ghost use Rattle.shelf.specs.Bits.{symbol_at};
ghost use Rattle.shelf.specs.Calls.{all_below};
ghost use Rattle.shelf.specs.Stored.{tab, max_size, InRoom, Written};

use crate::bits::{set_symbol, symbol};
use crate::shape::SymbolBits;

pub(crate) fn read_bits(bytes: &[u8], m: SymbolBits, start: usize, out: &mut [u16])
    requires { start + length out.old ≤ max_size }
    ensures { out.new ≡ tab (length out.old) (λ j. symbol_at bytes.now m.count (start + j) % 2 ^ m.count) }
{
    for (j, x) in out.iter_mut().enumerate() {
        *x = symbol(bytes, m, m.bit(start + j));
    }
}

pub(crate) fn write_bits(bytes: &mut [u8], m: SymbolBits, start: usize, cells: &[u16])
    requires { InRoom start (length cells.now) ((8 * length bytes.old) / m.count) × (all_below (2 ^ m.count) cells.now ≡ true) }
    ensures { Written (symbol_at bytes.old m.count) (symbol_at bytes.new m.count) start (length cells.now) (λ j. slice_index cells.now j) }
{
    for (j, c) in cells.iter().enumerate() {
        set_symbol(bytes, m, m.bit(start + j), *c);
    }
}

fn wipe_bits(bytes: &mut [u8], m: SymbolBits, start: usize, n: usize)
    requires { InRoom start n ((8 * length bytes.old) / m.count) }
    ensures { Written (symbol_at bytes.old m.count) (symbol_at bytes.new m.count) start n (λ j. 0) }
{
    for j in 0..n {
        set_symbol(bytes, m, m.bit(start + j), 0);
    }
}

// Makes the symbols from number 8 · first to before number 8 · last zero. Eight symbols of m bits fill m whole bytes, so that the
// byte at which symbol number 8 · g begins is the bit at which symbol number g does.
fn wipe_eights(bytes: &mut [u8], m: SymbolBits, first: usize, last: usize)
    requires order { first ≤ last }
    requires room { last * m.count ≤ length bytes.old }
    requires small { last ≤ max_size }
    ensures { Written (symbol_at bytes.old m.count) (symbol_at bytes.new m.count) (8 * first) (8 * (last - first)) (λ j. 0) }
{
    bytes[m.bit(first)..m.bit(last)].fill(0);
}

// Makes n symbols zero: as whole bytes what lies between two numbers that are multiples of eight, and the few before and
// behind symbol after symbol.
pub(crate) fn wipe_row(bytes: &mut [u8], m: SymbolBits, start: usize, n: usize)
    requires { InRoom start n ((8 * length bytes.old) / m.count) }
    ensures { Written (symbol_at bytes.old m.count) (symbol_at bytes.new m.count) start n (λ j. 0) }
{
    let end = start + n;
    let first = start.div_ceil(8);
    let last = end / 8;
    if first < last {
        wipe_bits(bytes, m, start, 8 * first - start);
        wipe_eights(bytes, m, first, last);
        wipe_bits(bytes, m, 8 * last, end - 8 * last);
    } else {
        wipe_bits(bytes, m, start, n);
    }
}
