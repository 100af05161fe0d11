// The shelf over memory of any kind.
ghost use Rattle.shelf.specs.Stored.{model_by};

use crate::interface::Shelf;
use crate::memory::Memory;
use crate::store::Store;
use refusal::Denial;

impl<M: Memory> Shelf for Store<M> {
    ghost model = { λ s. model_by s.live (M.Memory.symbol s.memory) (M.Memory.room s.memory) s.shape };

    fn boxes(&self) -> usize {
        self.told().shape.boxes
    }

    fn rows(&self) -> usize {
        self.told().shape.rows
    }

    fn width(&self) -> usize {
        self.told().shape.width
    }

    fn bits(&self) -> u32 {
        self.told().shape.bits
    }

    fn stands(&self, b: u16) -> Result<bool, Denial> {
        let i = self.told().box_index(b)?;
        Ok(self.live[i])
    }

    fn take(&self, b: u16, row: u16, out: &mut [u16]) -> Result<(), Denial> {
        let told = self.told();
        let start = told.judge_take(&self.live, b, row, out.len())?;
        self.memory.read(told.symbol_bits(), start, out);
        Ok(())
    }

    fn put(&mut self, b: u16, row: u16, cells: &[u16]) -> Result<(), Denial> {
        let told = self.told();
        let start = told.judge_put(&self.live, b, row, cells)?;
        self.memory.write(told.symbol_bits(), start, cells);
        Ok(())
    }

    fn kill(&mut self, b: u16) -> Result<(), Denial> {
        let i = self.told().box_index(b)?;
        self.live[i] = false;
        Ok(())
    }

    fn renew(&mut self, b: u16) -> Result<(), Denial> {
        let told = self.told();
        let i = told.box_index(b)?;
        let size = told.box_size();
        self.memory.wipe(told.symbol_bits(), i * size, size);
        self.live[i] = true;
        Ok(())
    }
}
