// The refusals: why a call was denied, and the box that it names.
ghost use Rattle.std.specs.Prelude.{◌≡◌};
ghost use Rattle.refusal.specs.Denials.{number_of, box_named};

// One case for each number that a caller can be told. `at` is the box that is named, counted from 1,
// and as wide as any number that a caller can write, so that a box out of range is named as it was asked for.
#[derive(Clone, Copy, PartialEq, Eq, Debug)]
pub enum Denial {
    // A number of the stripe or of the shelf is outside its limit.
    Limit,
    // The number of helpers does not suit the other numbers of the stripe.
    Helpers,
    // The field has too few points, or two of them agree in their power.
    Points,
    // The shelf has another number of boxes, rows, symbols or bits than the stripe.
    OtherShelf,
    // A list or a buffer has the wrong length, or lent memory is too short.
    Length,
    // There is no such box, or no such row in it.
    Range { at: u16 },
    // The box is named a second time.
    Repeated { at: u16 },
    // A symbol is no code of the field: it is 2^m or more.
    Symbol,
    // The box is dead.
    Dead { at: u16 },
    // The box is in another state than the call needs.
    State { at: u16 },
    // A repair is open where none may be, or none is where one must be. Only a refit names the box, the others 0.
    Repair { at: u16 },
    // The box has no such part in the repair.
    Part { at: u16 },
    // The receiver has the segment already, or is settled.
    Already { at: u16 },
    // The box lacks segments.
    Missing { at: u16 },
    // The line of text is no call.
    Unreadable,
}

impl Denial {
    // The number that stands for the refusal, 1 to 15.
    pub fn number(self) -> u8
        ensures { result ≡ number_of self }
    {
        match self {
            Denial::Limit => 1,
            Denial::Helpers => 2,
            Denial::Points => 3,
            Denial::OtherShelf => 4,
            Denial::Length => 5,
            Denial::Range { .. } => 6,
            Denial::Repeated { .. } => 7,
            Denial::Symbol => 8,
            Denial::Dead { .. } => 9,
            Denial::State { .. } => 10,
            Denial::Repair { .. } => 11,
            Denial::Part { .. } => 12,
            Denial::Already { .. } => 13,
            Denial::Missing { .. } => 14,
            Denial::Unreadable => 15,
        }
    }

    // The box that is named, or 0 where none is: both are the numbers that callers are told.
    pub fn at(self) -> u16
        ensures { result ≡ box_named self }
    {
        match self {
            Denial::Range { at }
            | Denial::Repeated { at }
            | Denial::Dead { at }
            | Denial::State { at }
            | Denial::Repair { at }
            | Denial::Part { at }
            | Denial::Already { at }
            | Denial::Missing { at } => at,
            Denial::Limit
            | Denial::Helpers
            | Denial::Points
            | Denial::OtherShelf
            | Denial::Length
            | Denial::Symbol
            | Denial::Unreadable => 0,
        }
    }
}
