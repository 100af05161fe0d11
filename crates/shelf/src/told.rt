// What a shelf over memory tells of itself.
ghost use Rattle.std.specs.Prelude.{◌≡◌, ◌*◌, ◌≤◌, true, false, IfOk, IfErr};
ghost use Rattle.refusal.specs.declared.denial.Denial.TheVariants.{Limit};
ghost use Rattle.shelf.specs.Limits.{Limits, in_limits};
ghost use Rattle.shelf.specs.Stored.{size, max_size, told};

use crate::memory::Memory;
use crate::shape::{Shape, SymbolBits};
use crate::store::Store;
use refusal::Denial;

// A shape that a shelf can tell: all its numbers are in their limits. It has no boxes if the shelf is not laid out.
#[derive(Clone, Copy)]
pub(crate) struct Told {
    pub(crate) shape: Shape,
    ghost limits: { Limits shape.boxes shape.rows shape.width shape.bits },
}

impl Told {
    const NONE: Told = Told { shape: Shape::NONE };

    // The shape, if its numbers are in their limits. A shape that passes has boxes.
    pub(crate) fn new(shape: Shape) -> Result<Told, Denial>
        ensures ok { IfOk result (λ t. (in_limits shape.boxes shape.rows shape.width shape.bits ≡ true) × (t.shape ≡ shape)) }
        ensures err { IfErr result (λ e. (in_limits shape.boxes shape.rows shape.width shape.bits ≡ false) × (e ≡ Limit)) }
    {
        if !shape.in_limits() {
            return Err(Denial::Limit);
        }
        Ok(Told { shape })
    }

    // The bits of a symbol, with the limits that they are in.
    pub(crate) fn symbol_bits(self) -> SymbolBits
        ensures { result.count ≡ self.shape.bits }
    {
        SymbolBits {
            count: self.shape.bits as usize,
        }
    }

    // The symbols of a box.
    pub(crate) fn box_size(self) -> usize
        ensures { result ≡ self.shape.rows * self.shape.width }
    {
        self.shape.rows * self.shape.width
    }

    // The symbols of all boxes.
    pub(crate) fn size(self) -> usize
        ensures value { result ≡ size self.shape }
        ensures bound { result ≤ max_size }
    {
        self.shape.boxes * self.box_size()
    }
}

impl<M: Memory> Store<M> {
    // The shelf's numbers. Those out of their limits, or of a shelf whose memory is too short, are as if it were not laid
    // out; laying out never leaves such a shelf, but a reader of this function alone cannot know that.
    pub(crate) fn told(&self) -> Told
        ensures value { result.shape ≡ told self.now.shape (M.Memory.room self.now.memory self.now.shape.bits) }
        ensures fits { size result.shape ≤ M.Memory.room self.now.memory result.shape.bits }
    {
        match Told::new(self.shape) {
            Ok(told) if self.memory.holds(told.symbol_bits(), told.size()) => told,
            _ => Told::NONE,
        }
    }
}
