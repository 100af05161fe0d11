// The numbers of a shelf, and their limits.
ghost use Rattle.std.specs.Prelude.{◌≡◌};
ghost use Rattle.shelf.specs.Limits.{BitsInLimits, in_limits, within};

pub(crate) const MAX_BOXES: usize = 16;

pub(crate) const MAX_ROWS: usize = 16;

pub(crate) const MAX_WIDTH: usize = 1024;

pub(crate) const MAX_BITS: usize = 16;

pub(crate) fn is_within(i: usize, n: usize) -> bool
    ensures { result ≡ within i n }
{
    (1..=n).contains(&i)
}

// How many bits a symbol has.
#[derive(Clone, Copy)]
pub struct SymbolBits {
    pub(crate) count: usize,
    ghost limits: { BitsInLimits count },
}

// Boxes, rows a box, symbols a row, bits a symbol. A shelf stores these plain numbers, with no word on their limits: a
// struct with a ghost field may not be part of a shelf, or users could hold no shelf in a struct of their own.
#[derive(Clone, Copy)]
pub struct Shape {
    pub(crate) boxes: usize,
    pub(crate) rows: usize,
    pub(crate) width: usize,
    pub(crate) bits: u32,
}

impl Shape {
    // Not laid out: there are no boxes.
    pub(crate) const NONE: Shape = Shape {
        boxes: 0,
        rows: 1,
        width: 1,
        bits: 1,
    };

    // Whether a shelf can be laid out with these numbers.
    pub(crate) fn in_limits(self) -> bool
        ensures { result ≡ in_limits self.boxes self.rows self.width self.bits }
    {
        is_within(self.boxes, MAX_BOXES)
            && is_within(self.rows, MAX_ROWS)
            && is_within(self.width, MAX_WIDTH)
            && is_within(self.bits as usize, MAX_BITS)
    }
}
