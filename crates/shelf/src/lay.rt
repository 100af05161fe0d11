// Laying a shelf out over its memory.
ghost use Rattle.std.specs.Prelude.{◌≡◌};
ghost use Rattle.shelf.specs.Stored.{model_by};
ghost use Rattle.shelf.specs.Lay.{lay_says, lay_does};

use crate::memory::Memory;
use crate::shape::{MAX_BOXES, Shape};
use crate::store::Store;
use crate::told::Told;
use refusal::Denial;

impl<M: Memory> Store<M> {
    // Lays the memory out anew, whatever it held: every box stands, with rows of zeros.
    pub fn lay(&mut self, boxes: usize, rows: usize, width: usize, bits: u32) -> Result<(), Denial>
        ensures value { result ≡ lay_says boxes rows width bits (M.Memory.room self.old.memory bits) }
        ensures after { model_by self.new.live (M.Memory.symbol self.new.memory) (M.Memory.room self.new.memory) self.new.shape ≡ lay_does result (model_by self.old.live (M.Memory.symbol self.old.memory) (M.Memory.room self.old.memory) self.old.shape) boxes rows width bits }
    {
        let laid = Told::new(Shape {
            boxes,
            rows,
            width,
            bits,
        })?;
        if !self.memory.holds(laid.symbol_bits(), laid.size()) {
            return Err(Denial::Length);
        }
        self.memory.wipe(laid.symbol_bits(), 0, laid.size());
        self.shape = laid.shape;
        self.live = [true; MAX_BOXES];
        Ok(())
    }
}
