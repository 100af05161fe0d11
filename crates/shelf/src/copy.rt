// Code over any shelf, proved from the model alone.
ghost use Rattle.std.specs.Prelude.{◌≡◌, length};
ghost use Rattle.shelf.specs.Copying.{copy_says, copy_does, copy_leaves};

use crate::interface::Shelf;
use refusal::Denial;

// Copies a row of one box to another box, through a buffer of one row.
pub fn copy_row<S: Shelf>(
    shelf: &mut S,
    from: u16,
    to: u16,
    row: u16,
    work: &mut [u16],
) -> Result<(), Denial>
    ensures value { result ≡ copy_says (S.Shelf.model shelf.old) from to row (length work.old) }
    ensures after { S.Shelf.model shelf.new ≡ copy_does result (S.Shelf.model shelf.old) from to row }
    ensures work { work.new ≡ copy_leaves (S.Shelf.model shelf.old) from row work.old }
{
    shelf.take(from, row, work)?;
    shelf.put(to, row, work)
}
