// Rows of symbols of 8 and of 16 bits, which lie in whole bytes. They have loops of their own: by the bits of any number
// a row was measured to be taken in forty times the time, and put in seven times. The two widths stay apart, since only
// the line that takes or puts a symbol is in each loop, and that line differs. A loop goes over the cells and finds the
// bytes by number: after `iter_mut().zip(..)` nothing is known of what was written. Bytes and start are all that the
// loops share, so that a type for the two would be made only to be taken apart.
ghost use Rattle.std.specs.Prelude.{◌≡◌, ℕ, ◌+◌, ◌*◌, ◌%◌, ◌^◌, ◌<◌, ◌≤◌, true, length, slice_index};
ghost use Rattle.shelf.specs.Bits.{symbol_at};
ghost use Rattle.shelf.specs.Calls.{all_below};
ghost use Rattle.shelf.specs.Stored.{tab, Written};

// A byte a symbol.
pub(crate) fn read_bytes(bytes: &[u8], start: usize, out: &mut [u16])
    requires { start + length out.old ≤ length bytes.now }
    ensures { out.new ≡ tab (length out.old) (λ j. symbol_at bytes.now 8 (start + j) % 2 ^ 8) }
{
    for (j, x) in out.iter_mut().enumerate() {
        *x = u16::from(bytes[start + j]);
    }
}

pub(crate) fn write_bytes(bytes: &mut [u8], start: usize, cells: &[u16])
    requires { (start + length cells.now ≤ length bytes.old) × (all_below (2 ^ 8) cells.now ≡ true) }
    ensures { Written (symbol_at bytes.old 8) (symbol_at bytes.new 8) start (length cells.now) (λ j. slice_index cells.now j) }
{
    for (j, c) in cells.iter().enumerate() {
        bytes[start + j] = *c as u8;
    }
}

// Two bytes a symbol, the high one first.
pub(crate) fn read_pairs(bytes: &[u8], start: usize, out: &mut [u16])
    requires { 2 * (start + length out.old) ≤ length bytes.now }
    ensures { out.new ≡ tab (length out.old) (λ j. symbol_at bytes.now 16 (start + j) % 2 ^ 16) }
{
    for (j, x) in out.iter_mut().enumerate() {
        let p = 2 * (start + j);
        *x = u16::from_be_bytes([bytes[p], bytes[p + 1]]);
    }
}

pub(crate) fn write_pairs(bytes: &mut [u8], start: usize, cells: &[u16])
    requires { 2 * (start + length cells.now) ≤ length bytes.old }
    ensures { Written (symbol_at bytes.old 16) (symbol_at bytes.new 16) start (length cells.now) (λ j. slice_index cells.now j) }
{
    for (j, c) in cells.iter().enumerate() {
        let p = 2 * (start + j);
        let [high, low] = c.to_be_bytes();
        bytes[p] = high;
        bytes[p + 1] = low;
    }
}
