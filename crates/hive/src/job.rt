// The steps of a task on a stripe: plans are made in memory of the job and applied to rows.
use crate::rows::Rows;
use crate::stop::Stop;
use beehive::Numbers;
use blocks::{load_plan, read_plan};
use coder::{PLAN_ELEMENTS, ROOM_ELEMENTS, apply};
use field::Field;
use gateways::elements;
use repair::{help_plan, pass_plan, settle_plan};
use std::alloc::{AllocError, Global};

// A box that is refilled, and the segments that came to it: from the helpers, and from the other newcomers.
#[derive(Drop)]
pub(crate) struct Newcomer {
    pub(crate) at: u16,
    pub(crate) helps: Rows,
    pub(crate) passes: Rows,
}

// The stripe's numbers, the boxes that help, and the memory that plans are made in.
#[derive(Drop)]
pub(crate) struct Job<'a, F: Field> {
    heap: Global,
    numbers: &'a Numbers,
    helpers: &'a [u16],
    plan: Vec<F::Elem>,
    room: Vec<F::Elem>,
}

// Adds to the row `sum` the coefficients times the rows.
fn add_rows<F: Field>(coefficients: &[F::Elem], rows: &Rows, sum: &mut [u16]) {
    for (c, row) in coefficients.iter().zip(rows.rows()) {
        apply::<F>(*c, row, sum);
    }
}

// The block of a box, among those of boxes 1, 2, 3 and so on.
pub(crate) fn block_of(blocks: &[Rows], at: u16) -> Option<&Rows> {
    blocks.get(usize::from(at).wrapping_sub(1))
}

impl<'a, F: Field> Job<'a, F> {
    pub(crate) fn new(
        heap: Global,
        numbers: &'a Numbers,
        helpers: &'a [u16],
    ) -> Result<Job<'a, F>, AllocError> {
        let plan = elements::<F>(heap, &[0; PLAN_ELEMENTS])?;
        let room = elements::<F>(heap, &[0; ROOM_ELEMENTS])?;
        Ok(Job {
            heap,
            numbers,
            helpers,
            plan,
            room,
        })
    }

    // No rows as yet.
    fn no_rows(&self) -> Rows {
        Rows::new(self.heap, self.numbers)
    }

    // The sum of the plan's coefficients times the rows.
    fn applied(&self, rows: &Rows) -> Result<Vec<u16>, AllocError> {
        let mut sum = vec![in self.heap; 0u16; self.numbers.width()]?;
        add_rows::<F>(&self.plan, rows, &mut sum);
        Ok(sum)
    }

    // The block of a box, from the data.
    fn loaded(&mut self, at: u16, data: &Rows) -> Result<Rows, Stop> {
        let mut block = self.no_rows();
        for row in 0..self.numbers.beta() {
            load_plan::<F>(self.numbers, at, row, &mut self.plan, &mut self.room)?;
            block.push_row(&self.applied(data)?)?;
        }
        Ok(block)
    }

    // The blocks of the boxes, from the data.
    pub(crate) fn load(&mut self, boxes: &[u16], data: &Rows) -> Result<Vec<Rows>, Stop> {
        let mut blocks = Vec::new(self.heap);
        for at in boxes {
            blocks.push(self.loaded(*at, data)?)?;
        }
        Ok(blocks)
    }

    // The segments about a box, from the helpers.
    fn helped(&mut self, about: u16, blocks: &[Rows]) -> Result<Rows, Stop> {
        let mut segments = self.no_rows();
        for from in self.helpers {
            help_plan::<F>(self.numbers, *from, about, &mut self.plan)?;
            if let Some(block) = block_of(blocks, *from) {
                segments.push_row(&self.applied(block)?)?;
            }
        }
        Ok(segments)
    }

    // The newcomers with what the helpers send them; nothing is passed as yet.
    pub(crate) fn help(&mut self, boxes: &[u16], blocks: &[Rows]) -> Result<Vec<Newcomer>, Stop> {
        let mut newcomers = Vec::new(self.heap);
        for at in boxes {
            let helps = self.helped(*at, blocks)?;
            let passes = self.no_rows();
            newcomers.push(Newcomer {
                at: *at,
                helps,
                passes,
            })?;
        }
        Ok(newcomers)
    }

    // What the other newcomers pass to a box.
    fn passed(&mut self, to: u16, newcomers: &[Newcomer]) -> Result<Rows, Stop> {
        let mut segments = self.no_rows();
        for from in newcomers {
            if from.at != to {
                pass_plan::<F>(
                    self.numbers,
                    from.at,
                    to,
                    self.helpers,
                    &mut self.plan,
                    &mut self.room,
                )?;
                segments.push_row(&self.applied(&from.helps)?)?;
            }
        }
        Ok(segments)
    }

    // What is passed to each newcomer, in their order.
    pub(crate) fn pass(&mut self, newcomers: &[Newcomer]) -> Result<Vec<Rows>, Stop> {
        let mut passes = Vec::new(self.heap);
        for to in newcomers {
            passes.push(self.passed(to.at, newcomers)?)?;
        }
        Ok(passes)
    }

    // The block of a newcomer, from the segments that came to it.
    fn settled(&mut self, newcomer: &Newcomer, others: &[u16]) -> Result<Rows, Stop> {
        let mut block = self.no_rows();
        for row in 0..self.numbers.beta() {
            settle_plan::<F>(
                self.numbers,
                newcomer.at,
                self.helpers,
                others,
                row,
                &mut self.plan,
                &mut self.room,
            )?;
            let mut sum = self.applied(&newcomer.helps)?;
            let rest = self.plan.get(self.numbers.helpers()..).unwrap_or(&[]);
            add_rows::<F>(rest, &newcomer.passes, &mut sum);
            block.push_row(&sum)?;
        }
        Ok(block)
    }

    // All blocks, those of the newcomers settled and the others as they were.
    pub(crate) fn settle(
        &mut self,
        newcomers: &[Newcomer],
        boxes: &[u16],
        blocks: &[Rows],
    ) -> Result<Vec<Rows>, Stop> {
        let mut all = Vec::new(self.heap);
        for (at, block) in boxes.iter().zip(blocks) {
            let settled = match newcomers.iter().find(|n| n.at == *at) {
                Some(newcomer) => {
                    let others: Vec<u16> = newcomers
                        .iter()
                        .map(|n| n.at)
                        .filter(|n| *n != *at)
                        .collect(self.heap)?;
                    self.settled(newcomer, &others)?
                }
                None => block.copied()?,
            };
            all.push(settled)?;
        }
        Ok(all)
    }

    // The data, from the blocks of the boxes named: the first rows of boxes 1, 2, 3 and so on, as many as there are data.
    pub(crate) fn read(&mut self, from: &[u16], blocks: &[Rows]) -> Result<Rows, Stop> {
        let mut sources = self.no_rows();
        for block in from.iter().filter_map(|at| block_of(blocks, *at)) {
            for row in block.rows() {
                sources.push_row(row)?;
            }
        }
        let mut data = self.no_rows();
        let mut left = self.numbers.data_rows();
        for to in 1..17u16 {
            for row in 0..self.numbers.beta().min(left) {
                read_plan::<F>(self.numbers, from, to, row, &mut self.plan, &mut self.room)?;
                data.push_row(&self.applied(&sources)?)?;
            }
            left = left.saturating_sub(self.numbers.beta());
        }
        Ok(data)
    }
}
