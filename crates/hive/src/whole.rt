// One whole task on a stripe, in memory: data are loaded into blocks, boxes are lost, helpers and newcomers send their
// segments, the lost blocks are settled, and the data are read back from boxes that include the settled ones.
use crate::job::{Job, Newcomer};
use crate::rows::Rows;
use crate::stop::Stop;
use beehive::Numbers;
use field::Field;
use std::alloc::Global;

// What a task was given and what came of it. Blocks follow in the order of their boxes.
#[derive(Drop)]
pub(crate) struct Task {
    pub(crate) newcomers: Vec<Newcomer>,
    // the boxes that help, and those that the data are read back from
    pub(crate) helpers: Vec<u16>,
    pub(crate) from: Vec<u16>,
    pub(crate) data: Rows,
    pub(crate) blocks: Vec<Rows>,
    // the blocks with those of the newcomers as they were settled
    pub(crate) settled: Vec<Rows>,
    pub(crate) read: Rows,
}

// The whole task for the given data: load, help, pass, settle and read, each from what the one before it left. The newcomers are
// the t boxes after the first `shift`, the helpers the d boxes after them, and the data are read back from the first k of these.
pub(crate) fn whole_task<F: Field>(
    heap: Global,
    numbers: &Numbers,
    data: Rows,
    shift: usize,
) -> Result<Task, Stop> {
    let boxes: Vec<u16> = (1..17u16).take(numbers.boxes()).collect(heap)?;
    let order: Vec<u16> = boxes
        .iter()
        .skip(shift)
        .chain(boxes.iter().take(shift))
        .copied()
        .collect(heap)?;
    let t = numbers.newcomers();
    let lost: Vec<u16> = order.iter().take(t).copied().collect(heap)?;
    let helpers: Vec<u16> = order
        .iter()
        .skip(t)
        .take(numbers.helpers())
        .copied()
        .collect(heap)?;
    let from: Vec<u16> = order.iter().take(numbers.needed()).copied().collect(heap)?;
    let mut job = Job::<F>::new(heap, numbers, &helpers)?;
    let blocks = job.load(&boxes, &data)?;
    let mut newcomers = job.help(&lost, &blocks)?;
    let passes = job.pass(&newcomers)?;
    for (newcomer, passed) in newcomers.iter_mut().zip(passes) {
        newcomer.passes = passed;
    }
    let settled = job.settle(&newcomers, &boxes, &blocks)?;
    let read = job.read(&from, &settled)?;
    drop(job);
    Ok(Task {
        newcomers,
        helpers,
        from,
        data,
        blocks,
        settled,
        read,
    })
}
