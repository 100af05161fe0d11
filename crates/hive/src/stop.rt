// Why a task stops before its end.
use refusal::Denial;
use std::alloc::{AllocError, AllocFailed};
use std::error::Error;
use std::fmt;

#[derive(Clone, Copy, Debug)]
pub(crate) enum Stop {
    // There is no memory.
    Memory,
    // The stripe's numbers, or the memory for a plan, were refused.
    Denied(Denial),
}

impl From<AllocError> for Stop {
    fn from(_e: AllocError) -> Stop {
        Stop::Memory
    }
}

impl<T: Drop> From<AllocFailed<T>> for Stop {
    fn from(_e: AllocFailed<T>) -> Stop {
        Stop::Memory
    }
}

impl From<Denial> for Stop {
    fn from(e: Denial) -> Stop {
        Stop::Denied(e)
    }
}

impl fmt::Display for Stop {
    fn fmt<W: fmt::Write>(&self, f: &mut fmt::Formatter<W>) -> fmt::Result {
        match self {
            Stop::Memory => write!(f, "no memory"),
            Stop::Denied(Denial::Length) => write!(f, "the memory for a plan is too short"),
            Stop::Denied(_) => write!(f, "the numbers are outside the limits"),
        }
    }
}

impl Error for Stop {}
