// The checks of a shelf's calls, each with the refusal that it gives.
ghost use Rattle.std.specs.Prelude.{◌≡◌, ℕ, ◌-◌, ◌^◌, ◌<◌, ◌≤◌, true, false, length, Ok, IfOk, slice_index_or};
ghost use Rattle.refusal.specs.declared.denial.Denial.TheVariants.{Range};
ghost use Rattle.refusal.specs.Checks.{check, and_then};
ghost use Rattle.shelf.specs.Limits.{within};
ghost use Rattle.shelf.specs.Calls.{all_below, placed, coded, living};
ghost use Rattle.shelf.specs.Stored.{place, size, InRoom};

use crate::shape::{MAX_BOXES, SymbolBits, is_within};
use crate::told::Told;
use refusal::Denial;

fn all_below(cells: &[u16], limit: u32) -> bool
    ensures { result ≡ all_below limit cells.now }
{
    cells.iter().all(|c| u32::from(*c) < limit)
}

fn is_coded(cells: &[u16], m: SymbolBits) -> Result<(), Denial>
    ensures { result ≡ coded m.count cells.now }
{
    if !all_below(cells, m.codes()) {
        return Err(Denial::Symbol);
    }
    Ok(())
}

fn is_living(live: &[bool; MAX_BOXES], b: u16) -> Result<(), Denial>
    requires { (1 ≤ b) × (b ≤ length live.now) }
    ensures { result ≡ living (slice_index_or live.now (b - 1) false) b }
{
    if !live[usize::from(b) - 1] {
        return Err(Denial::Dead { at: b });
    }
    Ok(())
}

impl Told {
    // The index of box `b` from 0, if there is such a box.
    pub(crate) fn box_index(self, b: u16) -> Result<usize, Denial>
        ensures value { result ≡ and_then (check (within b self.shape.boxes) (Range b)) (Ok (b - 1)) }
        ensures ok { IfOk result (λ i. (within b self.shape.boxes ≡ true) × (i ≡ b - 1) × (i < self.shape.boxes)) }
    {
        if !is_within(usize::from(b), self.shape.boxes) {
            return Err(Denial::Range { at: b });
        }
        Ok(usize::from(b) - 1)
    }

    // The place of the first symbol of row `row` of box `b`, if there is such a row of n symbols.
    fn row_start(self, b: u16, row: u16, n: usize) -> Result<usize, Denial>
        ensures value { result ≡ and_then (placed self.shape.boxes self.shape.rows self.shape.width b row n) (Ok (place self.shape.rows self.shape.width (b - 1) (row - 1))) }
        ensures ok { IfOk result (λ s. (1 ≤ b) × (b ≤ self.shape.boxes) × InRoom s n (size self.shape)) }
    {
        let i = self.box_index(b)?;
        let row = usize::from(row);
        if !is_within(row, self.shape.rows) {
            return Err(Denial::Range { at: b });
        }
        if n != self.shape.width {
            return Err(Denial::Length);
        }
        Ok((i * self.shape.rows + (row - 1)) * self.shape.width)
    }

    // Where the row begins that n cells are to be taken of, if that may be. `live` says which boxes stand.
    pub(crate) fn judge_take(
        self,
        live: &[bool; MAX_BOXES],
        b: u16,
        row: u16,
        n: usize,
    ) -> Result<usize, Denial>
        ensures value { result ≡ and_then (and_then (placed self.shape.boxes self.shape.rows self.shape.width b row n) (living (slice_index_or live.now (b - 1) false) b)) (Ok (place self.shape.rows self.shape.width (b - 1) (row - 1))) }
        ensures ok { IfOk result (λ s. InRoom s n (size self.shape)) }
    {
        let start = self.row_start(b, row, n)?;
        is_living(live, b)?;
        Ok(start)
    }

    // Where the row begins that these cells are to be put into, if that may be.
    pub(crate) fn judge_put(
        self,
        live: &[bool; MAX_BOXES],
        b: u16,
        row: u16,
        cells: &[u16],
    ) -> Result<usize, Denial>
        ensures value { result ≡ and_then (and_then (placed self.shape.boxes self.shape.rows self.shape.width b row (length cells.now)) (and_then (coded self.shape.bits cells.now) (living (slice_index_or live.now (b - 1) false) b))) (Ok (place self.shape.rows self.shape.width (b - 1) (row - 1))) }
        ensures ok { IfOk result (λ s. InRoom s (length cells.now) (size self.shape) × (all_below (2 ^ self.shape.bits) cells.now ≡ true)) }
    {
        let start = self.row_start(b, row, cells.len())?;
        is_coded(cells, self.symbol_bits())?;
        is_living(live, b)?;
        Ok(start)
    }
}
