// The first worked example of the code: six boxes over the nibble field, k = 3, r = 3, d = 4, t = 2, w = 1, from the
// matrices S, T and Z, and the segments by which boxes 1 and 2 are refilled.
use crate::report::Spaced;
use crate::stop::Stop;
use anyhow::Context;
use beehive::{Numbers, first_entry, node_of, second_entry, segment_of};
use field::Field;
use gateways::{codes, elements};
use std::alloc::Global;

// S, T and Z by their codes, row after row.
const FREE: [u16; 4] = [1, 0, 0, 0];

const TIMES_MU: [u16; 4] = [0, 0, 0, 1];

const SECOND: [u16; 2] = [0, 1];

// The block of box i, by the code rule.
fn block<F: Field>(heap: Global, numbers: &Numbers, i: u16) -> anyhow::Result<Vec<F::Elem>> {
    let free = elements::<F>(heap, &FREE)?;
    let times_mu = elements::<F>(heap, &TIMES_MU)?;
    let second = elements::<F>(heap, &SECOND)?;
    let node = node_of(numbers, i);
    let firsts = (0..numbers.alpha()).filter_map(|j| first_entry::<F>(
        numbers, node, &free, &times_mu, j,
    ));
    let seconds = (0..numbers.tail()).filter_map(|q| second_entry::<F>(numbers, node, &second, q));
    Ok(firsts.chain(seconds).collect(heap)?)
}

// The code of the segment from box i about box j.
fn sent<F: Field>(heap: Global, numbers: &Numbers, i: u16, j: u16) -> anyhow::Result<u16> {
    let held = block::<F>(heap, numbers, i)?;
    let segment = segment_of::<F>(numbers, node_of(numbers, i), node_of(numbers, j), &held).context(
        "the block is not of the stripe's rows",
    )?;
    Ok(F::code(segment))
}

// The segments that the helpers 3 to 6 send to box j.
fn received<F: Field>(heap: Global, numbers: &Numbers, j: u16) -> anyhow::Result<Vec<u16>> {
    let mut all = Vec::new(heap);
    for i in 3..7 {
        all.push(sent::<F>(heap, numbers, i, j)?)?;
    }
    Ok(all)
}

fn blocks<F: Field>(rt: &HostRuntime, numbers: &Numbers) -> anyhow::Result<()> {
    rt.println("Six boxes, any three of which give the data 1 1 1 1 8 2 1 15 back:")?;
    for i in 1..7 {
        let held = block::<F>(rt.alloc(), numbers, i)?;
        let shown = codes::<F>(rt.alloc(), &held)?;
        println!(rt; "  box {i} holds{}", Spaced(&shown))?;
    }
    Ok(())
}

fn segments<F: Field>(rt: &HostRuntime, numbers: &Numbers) -> anyhow::Result<()> {
    rt.println("Boxes 1 and 2 are refilled from boxes 3 to 6:")?;
    for j in 1..3 {
        let came = received::<F>(rt.alloc(), numbers, j)?;
        println!(rt; "  box {j} gets{}", Spaced(&came))?;
    }
    let there = sent::<F>(rt.alloc(), numbers, 2, 1)?;
    let back = sent::<F>(rt.alloc(), numbers, 1, 2)?;
    println!(rt; "  box 1 passes {there} to box 2")?;
    println!(rt; "  box 2 passes {back} to box 1")?;
    Ok(())
}

// Prints the blocks, and the segments of the repair of boxes 1 and 2.
pub(crate) fn six_boxes<F: Field>(rt: &HostRuntime) -> anyhow::Result<()> {
    let numbers = Numbers::new(3, 3, 4, 2, 1).map_err(Stop::from)?;
    blocks::<F>(rt, &numbers)?;
    segments::<F>(rt, &numbers)
}
