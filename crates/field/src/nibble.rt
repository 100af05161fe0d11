// The nibble field: 16 elements, the polynomials modulo X^4 + X + 1, which is 19 by its bits. X, whose code is 2, is a
// generator, and ν is 8.
ghost use Rattle.field.specs.Residues.{code_of, from_code};
ghost use Rattle.field.specs.Fields;
ghost use Rattle.field.specs.Moduli.{nibble_modulus};
ghost use Rattle.std.proofs.Math.Path.{refl};
ghost use Rattle.field.specs.Polynomials.{carryless, remainder, product};
ghost use Rattle.field.specs.Polynomials;
ghost use Rattle.field.specs.Computed;
ghost use Rattle.std.proofs.Common.{rules};

use crate::entries::{log_entry, power_entry};
use crate::polynomial::residue_of;
use crate::residue::Residue;
use crate::tabled::{Tabled, Tables};

const BITS: u32 = 4;

const NU: u16 = 8;

// Entry k is the logarithm of k + 1: X to it is the polynomial k + 1.
const LOGS: [u8; 15] = [0, 1, 4, 2, 8, 5, 10, 3, 14, 9, 7, 6, 13, 11, 12];

// Entry k is X to the power of k, twice around, so that the sum of two logarithms needs no reduction.
const POWERS: [u8; 30] = [
    1, 2, 4, 8, 3, 6, 12, 11, 5, 10, 7, 14, 15, 13, 9, 1, 2, 4, 8, 3, 6, 12, 11, 5, 10, 7, 14, 15,
    13, 9,
];

pub struct NibbleTables;

pub type Nibbles = Tabled<NibbleTables>;

impl Tables for NibbleTables {
    type Elem = Residue<4>;

    ghost m = { 4 };

    ghost p = { 19 };

    ghost nu = { 8 };

    ghost code = { code_of 4 };

    ghost element = { from_code 4 };

    ghost few = { Prim.search rules };

    ghost coded = { Fields.coded 4 };

    ghost modulus = { nibble_modulus };

    ghost round = { unfold carryless remainder product Polynomials.power in refl };

    ghost within = { Prim.search rules };

    ghost rootless = { unfold carryless remainder product in Computed.rootless 4 19 8 tt };

    fn bits() -> u32 {
        BITS
    }

    fn nu() -> u16 {
        NU
    }

    fn element(n: u16) -> Residue<4> {
        residue_of((n % 16) as u8)
    }

    fn code(a: Residue<4>) -> u8 {
        a.code
    }

    fn log(a: u8) -> u8 {
        log_entry::<4, 19>(&LOGS, a)
    }

    fn power(k: usize) -> u8 {
        power_entry::<4, 19>(&POWERS, k)
    }
}
