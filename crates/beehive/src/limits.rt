// Making the numbers of a stripe, and what follows from them.
ghost use Rattle.std.specs.Prelude.{◌≡◌, Ok, Err};
ghost use Rattle.beehive.specs.Making.{Judged};
ghost use Rattle.beehive.specs.Numbers.{boxes, alpha, tail, beta, virtuals, data_rows};

use crate::numbers::Numbers;
use refusal::Denial;

// The limits, each once: specs/Limits.antt has the same under their names.
const MOST_BOXES: u16 = 16;

const MOST_NEEDED: u16 = 8;

const MOST_NEWCOMERS: u16 = 4;

const MOST_SYMBOLS: u16 = 1024;

const MOST_DEPTH: u16 = 8;

impl Numbers {
    // The numbers k, r, d, t and w, if they are within the limits; else which check they fail first: `Limit` where k, r,
    // k + r, t or w is outside its own limits, `Helpers` where d does not suit them.
    pub fn new(k: u16, r: u16, d: u16, t: u16, w: u16) -> Result<Numbers, Denial>
        ensures { Judged k r d t w result }
    {
        if k < 2 || k > MOST_NEEDED || r < 1 || r > MOST_BOXES - k {
            return Err(Denial::Limit);
        }
        if t < 2 || t > MOST_NEWCOMERS || w < 1 || w > MOST_SYMBOLS {
            return Err(Denial::Limit);
        }
        if d < 2 * k - 2 || d > k + r || d + t > k + r || d - k + 1 > MOST_DEPTH {
            return Err(Denial::Helpers);
        }
        Ok(Numbers { k, r, d, t, w })
    }

    // k, how many boxes give the data back.
    pub fn needed(&self) -> usize
        ensures { result ≡ self.now.k }
    {
        self.k as usize
    }

    // n, how many boxes there are.
    pub fn boxes(&self) -> usize
        ensures { result ≡ boxes self.now }
    {
        (self.k + self.r) as usize
    }

    // d, how many boxes help a newcomer.
    pub fn helpers(&self) -> usize
        ensures { result ≡ self.now.d }
    {
        self.d as usize
    }

    // t, how many boxes are refilled together.
    pub fn newcomers(&self) -> usize
        ensures { result ≡ self.now.t }
    {
        self.t as usize
    }

    // w, the symbols of a row.
    pub fn width(&self) -> usize
        ensures { result ≡ self.now.w }
    {
        self.w as usize
    }

    // α, the rows of a block's first part.
    pub fn alpha(&self) -> usize
        ensures { result ≡ alpha self.now }
    {
        (self.d - self.k + 1) as usize
    }

    // t − 1, the rows of its second part.
    pub fn tail(&self) -> usize
        ensures { result ≡ tail self.now }
    {
        (self.t - 1) as usize
    }

    // β, the rows of a block.
    pub fn beta(&self) -> usize
        ensures { result ≡ beta self.now }
    {
        self.alpha() + self.tail()
    }

    // x, the virtual nodes before the boxes.
    pub fn virtuals(&self) -> usize
        ensures { result ≡ virtuals self.now }
    {
        (self.d + 2 - 2 * self.k) as usize
    }

    // B, the rows of the data.
    pub fn data_rows(&self) -> usize
        ensures { result ≡ data_rows self.now }
    {
        self.needed() * self.alpha() + (self.needed() - 1) * self.tail()
    }
}
