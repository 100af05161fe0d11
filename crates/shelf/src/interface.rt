// The interface of a shelf: boxes that keep rows of symbols.
ghost use Rattle.std.specs.Prelude.{◌≡◌, length};
ghost use Rattle.shelf.specs.Model.{Model, dead, Shaped};
ghost use Rattle.shelf.specs.Calls.{take_says, take_leaves, put_says, put_does, stands_says, box_says, box_does, blank};

use refusal::Denial;

// A shelf keeps the rows of a number of boxes, all of one shape. A box (one gateway's store) is dead, or it stands
// and holds its rows. Boxes `b` and rows `row` are counted from 1. Each call may be made with any arguments: it
// checks them in a fixed order, and a call that is denied changes nothing, the caller's buffer included.
pub trait Shelf {
    // What the shelf holds: all that callers can learn of it, and all that calls change.
    ghost model: { Self → Model };

    // The number of boxes, at most 16; 0 until the shelf is laid out, when the other numbers are 1.
    fn boxes(&self) -> usize
        ensures value { result ≡ length (model self.now).boxes }
        ensures shaped { Shaped (model self.now) };

    // Rows a box, 1 to 16.
    fn rows(&self) -> usize
        ensures { result ≡ (model self.now).rows };

    // Symbols a row, 1 to 1,024.
    fn width(&self) -> usize
        ensures { result ≡ (model self.now).width };

    // Bits a symbol, 1 to 16.
    fn bits(&self) -> u32
        ensures { result ≡ (model self.now).bits };

    // Whether a box stands.
    fn stands(&self, b: u16) -> Result<bool, Denial>
        ensures { result ≡ stands_says (model self.now) b };

    // Copies a row out.
    fn take(&self, b: u16, row: u16, out: &mut [u16]) -> Result<(), Denial>
        ensures value { result ≡ take_says (model self.now) b row (length out.old) }
        ensures after { out.new ≡ take_leaves result (model self.now) b row out.old };

    // Replaces a row.
    fn put(&mut self, b: u16, row: u16, cells: &[u16]) -> Result<(), Denial>
        ensures value { result ≡ put_says (model self.old) b row cells.now }
        ensures after { model self.new ≡ put_does result (model self.old) b row cells.now };

    // Makes a box dead: its rows are gone.
    fn kill(&mut self, b: u16) -> Result<(), Denial>
        ensures value { result ≡ box_says (model self.old) b }
        ensures after { model self.new ≡ box_does result (model self.old) b dead };

    // Makes a box stand, with rows of zeros.
    fn renew(&mut self, b: u16) -> Result<(), Denial>
        ensures value { result ≡ box_says (model self.old) b }
        ensures after { model self.new ≡ box_does result (model self.old) b (blank (model self.old).rows (model self.old).width) };
}
