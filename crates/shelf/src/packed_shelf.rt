// The packed shelf: m bits a symbol, without gaps.
ghost use Rattle.std.specs.Prelude.{◌≡◌};
ghost use Rattle.shelf.specs.Lay.{unlaid};
ghost use Rattle.shelf.specs.PackedShelves.{packed_model};

use crate::packed::Packed;
use crate::store::Store;

pub type PackedShelf<'a> = Store<Packed<'a>>;

impl<'a> Store<Packed<'a>> {
    // A shelf over these bytes, with no boxes as yet.
    pub fn over(bytes: &'a mut [u8]) -> PackedShelf<'a>
        ensures value { packed_model result ≡ unlaid }
        ensures same { result.memory.bytes.now ≡ bytes.old }
    {
        Store::unlaid(Packed { bytes })
    }
}
