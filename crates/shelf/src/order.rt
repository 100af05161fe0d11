// The order of a shelf's checks, stated by the numbers of the refusals.
ghost use Rattle.shelf.specs.Order.{ChecksInOrder};

// Each check answers its own number and box, and only where every check before it passed.
pub fn checks_stand() -> u8
    ensures { ChecksInOrder }
{
    0
}
