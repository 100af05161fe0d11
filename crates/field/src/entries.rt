// Reading a table whose rule was tested once, over the whole table.
ghost use Rattle.std.specs.Prelude.{◌≡◌, ℕ, ◌+◌, ◌-◌, ◌^◌, ◌<◌, ◌≤◌, T, length};
ghost use Rattle.field.specs.Polynomials.{Degree, power};
ghost use Rattle.field.specs.Tables.{climbs, logs};

// Entry k of a table of the powers of X modulo P, of degree M.
pub(crate) fn power_entry<const M: u32, const P: u32>(table: &[u8], k: usize) -> u8
    requires degree { Degree M P }
    requires rule { T (climbs M P 1 table.now) }
    requires within { k < length table.now }
    ensures { result ≡ power M P k }
{
    table[k]
}

// The logarithm of a, from a table of those of 1, 2 and so on modulo P, of degree M.
pub(crate) fn log_entry<const M: u32, const P: u32>(table: &[u8], a: u8) -> u8
    requires degree { Degree M P }
    requires rule { T (logs M P (length table.now) 0 table.now) }
    requires some { 0 < a }
    requires within { a ≤ length table.now }
    ensures value { power M P result ≡ a }
    ensures bound { result < length table.now }
{
    table[a as usize - 1]
}
