// Figures of the four fields that are known from outside, computed by the code and proved of the definitions.
ghost use Rattle.std.specs.Prelude.{◌≡◌, [], ◌∷◌};
ghost use Rattle.field.specs.Figures.{Figures, product_code, inverse_code};

use crate::byte::Bytes;
use crate::interface::{Extensible, Field};
use crate::nibble::Nibbles;
use crate::pair::Pair;
use crate::tabled::Tables;

fn product_of<F: Field>(a: u16, b: u16) -> u16
    ensures { result ≡ product_code F.Field.ops a b }
{
    F::code(F::mul(F::element(a), F::element(b)))
}

// The code of the inverse, or 0 for zero, which has none.
fn inverse_of<F: Field>(a: u16) -> u16
    ensures { result ≡ inverse_code F.Field.ops a }
{
    F::inverse(F::element(a)).map_or(0, |i| F::code(i))
}

// The figures hold of the definitions.
pub fn figures_stand() -> u8
    ensures { Figures }
{
    0
}

// One code for each figure.
pub type Six = [u16; 6];

// Nibble 6·7, byte 2·128, pair over nibble 16·16 and the inverse of 16, pair over byte 256·256 and the inverse of 256.
pub fn figures() -> Six
    ensures { result ≡ 1 ∷ 29 ∷ 24 ∷ 255 ∷ 288 ∷ 27756 ∷ [] }
{
    let _ = figures_stand();
    [
        product_of::<Nibbles>(6, 7),
        product_of::<Bytes>(2, 128),
        product_of::<Pair<Nibbles>>(16, 16),
        inverse_of::<Pair<Nibbles>>(16),
        product_of::<Pair<Bytes>>(256, 256),
        inverse_of::<Pair<Bytes>>(256),
    ]
}
