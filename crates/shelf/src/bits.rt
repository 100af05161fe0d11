// A symbol of 1 to 16 bits within bytes. It lies in at most three of them, so it is read from and written into a
// window: the 24 bits of the byte that it begins in and of the two after it. Bytes past the end count as zeros.
ghost use Rattle.std.specs.Prelude.{◌≡◌, ℕ, ◌+◌, ◌*◌, ◌/◌, ◌%◌, ◌^◌, ◌<◌, ◌≤◌, length, slice_index, slice_set};
ghost use Rattle.shelf.specs.Bits.{bit_at, gather};
ghost use Rattle.shelf.specs.Stored.{max_size};

use crate::shape::SymbolBits;

impl SymbolBits {
    // The number of codes, 2^m.
    pub(crate) fn codes(self) -> u32
        ensures value { result ≡ 2 ^ self.count }
        ensures bound { (1 ≤ result) × (result ≤ 2 ^ 16) }
    {
        1 << self.count
    }

    // The bit at which the symbol at place p begins.
    pub(crate) fn bit(self, p: usize) -> usize
        requires { p ≤ max_size }
        ensures value { result ≡ p * self.count }
        ensures bound { result ≤ 2 ^ 22 }
    {
        p * self.count
    }
}

fn byte(bytes: &[u8], i: usize) -> u8
    ensures { result ≡ slice_index bytes.now i }
{
    bytes.get(i).copied().unwrap_or(0)
}

fn set_byte(bytes: &mut [u8], i: usize, v: u8)
    ensures { bytes.new ≡ slice_set bytes.old i v }
{
    // By its index: after `get_mut` a proof knows nothing of the bytes.
    if i < bytes.len() {
        bytes[i] = v;
    }
}

fn window(bytes: &[u8], i: usize) -> u32
    requires { i < 2 ^ 32 }
    ensures value { result ≡ gather (bit_at bytes.now) (8 * i) 24 }
    ensures bound { result < 2 ^ 24 }
{
    // By arithmetic: of `u32::from_be_bytes`, one of whose bytes is zero, the compiler makes more instructions a symbol.
    (u32::from(byte(bytes, i)) * 256 + u32::from(byte(bytes, i + 1))) * 256
        + u32::from(byte(bytes, i + 2))
}

fn set_window(bytes: &mut [u8], i: usize, w: u32)
    requires { (i < 2 ^ 32) × (w < 2 ^ 24) }
    ensures { bytes.new ≡ slice_set (slice_set (slice_set bytes.old i (w / 65536)) (i + 1) (w / 256 % 256)) (i + 2) (w % 256) }
{
    let [_, first, second, third] = w.to_be_bytes();
    set_byte(bytes, i, first);
    set_byte(bytes, i + 1, second);
    set_byte(bytes, i + 2, third);
}

// The symbol of m bits at bit s.
pub(crate) fn symbol(bytes: &[u8], m: SymbolBits, s: usize) -> u16
    requires { s < 2 ^ 32 }
    ensures { result ≡ gather (bit_at bytes.now) s m.count }
{
    // The mask is made here and in `set_symbol`: by `codes` a row was measured to be taken in a fifth more time.
    let behind = 24 - s % 8 - m.count;
    (window(bytes, s / 8) >> behind & ((1 << m.count) - 1)) as u16
}

// Replaces the symbol of m bits at bit s by v; every other bit stays.
pub(crate) fn set_symbol(bytes: &mut [u8], m: SymbolBits, s: usize, v: u16)
    requires { (s < 2 ^ 32) × (s + m.count ≤ 8 * length bytes.old) × (v < 2 ^ m.count) }
    ensures here { gather (bit_at bytes.new) s m.count ≡ v }
    ensures below { (k : ℕ) → k < s → bit_at bytes.new k ≡ bit_at bytes.old k }
    ensures above { (k : ℕ) → s + m.count ≤ k → bit_at bytes.new k ≡ bit_at bytes.old k }
{
    let behind = 24 - s % 8 - m.count;
    let w = window(bytes, s / 8);
    let old = w >> behind & ((1 << m.count) - 1);
    set_window(bytes, s / 8, w - (old << behind) + (u32::from(v) << behind));
}
