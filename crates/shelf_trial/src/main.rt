// Drives a word shelf and a packed shelf by the same random calls, and compares all that they answer.
#![tactic(auto)]

ghost use Rattle.std.specs.Prelude.{◌<◌, ◌≤◌, length};

use refusal::Denial;
use shelf::{PackedShelf, Shelf, WordShelf};

const BOXES: usize = 3;

const ROWS: usize = 2;

const WIDTH: usize = 5;

const SYMBOLS: usize = BOXES * ROWS * WIDTH;

// The bytes of all symbols at 16 bits, and one behind them.
const BYTES: usize = 2 * SYMBOLS + 1;

// Calls for each number of bits, besides the one that lays out.
const CALLS: u32 = 600;

// What the bytes behind the shelf's memory hold, before and after.
const BEHIND: u8 = 0xa5;

// A linear congruential generator, of which the upper half is used.
#[derive(Drop)]
struct Random {
    state: u32,
}

impl Random {
    fn below(&mut self, n: u32) -> u32
        requires { 0 < n }
        ensures { result < n }
    {
        self.state = self.state.wrapping_mul(1664525).wrapping_add(1013904223);
        (self.state >> 16) % n
    }
}

// How many calls were accepted and how many denied, and at how many the shelves differed.
#[derive(Clone, Copy, Default)]
struct Count {
    accepted: u32,
    denied: u32,
    differences: u32,
}

impl Count {
    // `one` and `two` are the answers of the shelves to a call; `same` says whether all else agrees after it.
    fn note(&mut self, one: Result<(), Denial>, two: Result<(), Denial>, same: bool) {
        if one.is_ok() {
            self.accepted = self.accepted.wrapping_add(1);
        } else {
            self.denied = self.denied.wrapping_add(1);
        }
        if one != two || !same {
            self.differences = self.differences.wrapping_add(1);
        }
    }
}

// The number of a box or of a row; one time in eight it is the one below the first or the one above the last.
fn some_number(random: &mut Random, last: u32) -> u16
    requires { (0 < last) × (last < 100) }
{
    match random.below(16) {
        0 => 0,
        1 => last as u16 + 1,
        _ => random.below(last) as u16 + 1,
    }
}

// Cells for a row, now and then one of them too large.
fn fill(random: &mut Random, bits: u32, cells: &mut [u16]) {
    for c in cells.iter_mut() {
        let code = random.below(65536) as u16;
        *c = if bits < 16 && random.below(40) > 0 {
            code % (1 << bits)
        } else {
            code
        };
    }
}

// Two shelves that get the same calls, and what came of these.
#[derive(Drop)]
struct Trial<A, B> {
    a: A,
    b: B,
    random: Random,
    count: Count,
}

impl<A: Shelf, B: Shelf> Trial<A, B> {
    // Takes a row from both shelves, now and then into too few cells.
    fn take(&mut self) {
        let mut one = [7u16; WIDTH];
        let mut two = [7u16; WIDTH];
        let at = some_number(&mut self.random, BOXES as u32);
        let row = some_number(&mut self.random, ROWS as u32);
        let from = if self.random.below(20) > 0 { 0 } else { 1 };
        let x = self.a.take(at, row, &mut one[from..]);
        let y = self.b.take(at, row, &mut two[from..]);
        self.count.note(x, y, one == two);
    }

    // Puts a row into both shelves, now and then of too few cells.
    fn put(&mut self) {
        let mut cells = [0u16; WIDTH];
        let at = some_number(&mut self.random, BOXES as u32);
        let row = some_number(&mut self.random, ROWS as u32);
        let bits = self.a.bits();
        fill(&mut self.random, bits, &mut cells);
        let used = if self.random.below(20) > 0 {
            WIDTH
        } else {
            WIDTH - 1
        };
        let x = self.a.put(at, row, &cells[..used]);
        let y = self.b.put(at, row, &cells[..used]);
        self.count.note(x, y, true);
    }

    // Kills or renews a box of both shelves, and asks whether it stands.
    fn mark(&mut self) {
        let at = some_number(&mut self.random, BOXES as u32);
        let (x, y) = if self.random.below(3) == 0 {
            (self.a.kill(at), self.b.kill(at))
        } else {
            (self.a.renew(at), self.b.renew(at))
        };
        self.count
            .note(x, y, self.a.stands(at) == self.b.stands(at));
    }

    // The list of calls depends on the number of bits alone.
    fn drive(&mut self) {
        for _ in 0..CALLS {
            match self.random.below(20) {
                0..=1 => self.mark(),
                2..=10 => self.put(),
                _ => self.take(),
            }
        }
    }
}

// Whether the bytes behind the shelf's memory are as they were.
fn kept_behind(bytes: &[u8]) -> bool {
    bytes.iter().all(|b| *b == BEHIND)
}

fn lay_and_drive(cells: &mut [u16], bytes: &mut [u8], bits: u32) -> Count {
    let mut a = WordShelf::over(cells);
    let mut b = PackedShelf::over(bytes);
    let x = a.lay(BOXES, ROWS, WIDTH, bits);
    let y = b.lay(BOXES, ROWS, WIDTH, bits);
    let random = Random { state: a.bits() };
    let mut trial = Trial {
        a,
        b,
        random,
        count: Count::default(),
    };
    trial.drive();
    trial.count.note(x, y, x.is_ok());
    trial.count
}

// The packed shelf has just the bytes that it needs; those behind them are looked at in the end.
fn drive_in_bytes(cells: &mut [u16], bytes: &mut [u8], used: usize, bits: u32) -> Count
    requires { used ≤ length bytes.old }
{
    let mut count = lay_and_drive(cells, &mut bytes[..used], bits);
    if !kept_behind(&bytes[used..]) {
        count.differences = count.differences.wrapping_add(1);
    }
    count
}

fn compare(bits: u32) -> Count
    requires { bits ≤ 16 }
{
    let mut cells = [9u16; SYMBOLS];
    let mut bytes = [BEHIND; BYTES];
    drive_in_bytes(
        &mut cells,
        &mut bytes,
        (SYMBOLS * bits as usize).div_ceil(8),
        bits,
    )
}

fn main(rt: HostRuntime) -> Result<(), std::io::Error> {
    for bits in 1..=16 {
        let count = compare(bits);
        println!(rt;
            "m = {bits}: {} accepted, {} denied, {} differences",
            count.accepted, count.denied, count.differences
        )?;
    }
    Ok(())
}

#[cfg(test)]
mod tests;
