// A shelf over lent memory of any kind: the boxes' rows follow one another in it.
ghost use Rattle.std.specs.Prelude.{◌≡◌};
ghost use Rattle.shelf.specs.Stored.{none};

use crate::shape::{MAX_BOXES, Shape};

// `live` says which boxes stand: a mark for each box that a shelf can have, since nothing is allocated.
#[derive(Drop)]
pub struct Store<M> {
    pub(crate) memory: M,
    pub(crate) shape: Shape,
    pub(crate) live: [bool; MAX_BOXES],
}

impl<M> Store<M> {
    // A shelf over this memory, with no boxes as yet.
    pub(crate) fn unlaid(memory: M) -> Store<M>
        ensures memory { result.memory ≡ memory }
        ensures shape { result.shape ≡ none }
    {
        Store {
            memory,
            shape: Shape::NONE,
            live: [false; MAX_BOXES],
        }
    }
}
