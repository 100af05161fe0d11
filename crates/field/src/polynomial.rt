// Making a residue of the number that is its code.
ghost use Rattle.std.specs.Prelude.{◌≡◌, ℕ, ◌%◌, ◌^◌, ◌<◌};
ghost use Rattle.field.specs.Residues.{from_code};

use crate::residue::Residue;

pub(crate) fn residue_of<const M: u8>(code: u8) -> Residue<M>
    requires { code < 2 ^ M }
    ensures { (n : ℕ) → code ≡ n % 2 ^ M → result ≡ from_code M n }
{
    Residue { code }
}
