// The console of the stripe, as far as it stands: whole tasks that say each of their steps.
#![tactic(auto)]

mod edges;
mod example;
mod job;
mod repaired;
mod report;
mod rows;
mod stop;
mod whole;

use edges::{LARGE, SMALL, edges};
use example::six_boxes;
use field::{Bytes, Nibbles, Pair};
use repaired::repaired;
use report::batch_record;

fn main(rt: HostRuntime) -> anyhow::Result<()> {
    run(&rt)
}

fn run(rt: &HostRuntime) -> anyhow::Result<()> {
    rt.println("A batch record is spread over seven gateways, and read back from five.")?;
    batch_record::<Nibbles>(rt, "nibble", &[7, 0, 15, 3, 9])?;
    batch_record::<Bytes>(rt, "byte", &[72, 101, 97, 116, 33])?;
    batch_record::<Pair<Nibbles>>(rt, "pair over nibble", &[16, 255, 1, 128, 77])?;
    batch_record::<Pair<Bytes>>(rt, "pair over byte", &[256, 65535, 27756, 288, 4095])?;
    six_boxes::<Nibbles>(rt)?;
    rt.println("Two boxes of six are lost and refilled together, over each field.")?;
    repaired::<Nibbles>(
        rt,
        "nibble",
        &[1, 2, 3, 4, 5, 6, 7, 8, 9, 10, 11, 12, 13, 14, 15, 0],
    )?;
    repaired::<Bytes>(
        rt,
        "byte",
        &[
            84, 104, 101, 32, 118, 97, 108, 118, 101, 115, 32, 104, 101, 108, 100, 46,
        ],
    )?;
    repaired::<Pair<Nibbles>>(
        rt,
        "pair over nibble",
        &[
            16, 255, 1, 128, 77, 0, 9, 250, 33, 34, 35, 36, 200, 201, 202, 203,
        ],
    )?;
    repaired::<Pair<Bytes>>(
        rt,
        "pair over byte",
        &[
            256, 65535, 27756, 288, 1, 2, 3, 4, 500, 600, 700, 800, 9000, 10000, 11000, 12000,
        ],
    )?;
    at_the_edges(rt)
}

// The same task at the edges of the numbers, each line saying only whether it held.
fn at_the_edges(rt: &HostRuntime) -> anyhow::Result<()> {
    rt.println("The same at the edges of the numbers.")?;
    edges::<Nibbles>(rt, "nibble", &SMALL)?;
    edges::<Pair<Bytes>>(rt, "pair over byte", &SMALL)?;
    edges::<Bytes>(rt, "byte", &LARGE)?;
    edges::<Pair<Nibbles>>(rt, "pair over nibble", &LARGE)
}
