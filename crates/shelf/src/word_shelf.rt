// The word shelf: a symbol in each 16-bit cell.
ghost use Rattle.std.specs.Prelude.{◌≡◌};
ghost use Rattle.shelf.specs.Lay.{unlaid};
ghost use Rattle.shelf.specs.WordShelves.{word_model};

use crate::store::Store;
use crate::words::Words;

pub type WordShelf<'a> = Store<Words<'a>>;

impl<'a> Store<Words<'a>> {
    // A shelf over these cells, with no boxes as yet.
    pub fn over(cells: &'a mut [u16]) -> WordShelf<'a>
        ensures value { word_model result ≡ unlaid }
        ensures same { result.memory.cells.now ≡ cells.old }
    {
        Store::unlaid(Words { cells })
    }
}
