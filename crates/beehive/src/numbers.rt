// The stripe's numbers, as a type that can hold no others than those within the limits.
ghost use Rattle.beehive.specs.Limits.{InLimits, WellHelped};

// Any k boxes give the data back; r boxes more are kept, n = k + r in all; t lost boxes (the newcomers) are refilled
// together from d others (the helpers); a row has w symbols.
#[derive(Clone, Copy)]
pub struct Numbers {
    pub(crate) k: u16,
    pub(crate) r: u16,
    pub(crate) d: u16,
    pub(crate) t: u16,
    pub(crate) w: u16,
    ghost limits: { InLimits k r t w },
    ghost helped: { WellHelped k r d t },
}
