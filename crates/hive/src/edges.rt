// Whole tasks at the edges of the stripe's numbers, with data that look random.
use crate::rows::Rows;
use crate::stop::Stop;
use crate::whole::whole_task;
use beehive::Numbers;
use field::Field;
use std::alloc::{AllocError, Global};
use std::fmt;

// The stripe's numbers, and how many boxes stand before the newcomers.
#[derive(Clone, Copy)]
pub(crate) struct Case {
    k: u16,
    r: u16,
    d: u16,
    t: u16,
    w: u16,
    shift: usize,
}

// The small cases, which every field has points for: α = 1 with no virtual node; one virtual node; four newcomers; rows of 1,024
// symbols.
pub(crate) const SMALL: [Case; 5] = [
    Case {
        k: 2,
        r: 2,
        d: 2,
        t: 2,
        w: 1,
        shift: 1,
    },
    Case {
        k: 2,
        r: 3,
        d: 3,
        t: 2,
        w: 3,
        shift: 3,
    },
    Case {
        k: 3,
        r: 3,
        d: 4,
        t: 2,
        w: 2,
        shift: 4,
    },
    Case {
        k: 2,
        r: 6,
        d: 3,
        t: 4,
        w: 5,
        shift: 2,
    },
    Case {
        k: 3,
        r: 7,
        d: 6,
        t: 4,
        w: 1024,
        shift: 8,
    },
];

// The cases of many nodes: α = 8 and seven virtual nodes; k = 8 and all 16 boxes.
pub(crate) const LARGE: [Case; 2] = [
    Case {
        k: 2,
        r: 9,
        d: 9,
        t: 2,
        w: 16,
        shift: 10,
    },
    Case {
        k: 8,
        r: 8,
        d: 14,
        t: 2,
        w: 3,
        shift: 7,
    },
];

impl fmt::Display for Case {
    fn fmt<W: fmt::Write>(&self, f: &mut fmt::Formatter<W>) -> fmt::Result {
        let Case { k, r, d, t, w, .. } = *self;
        write!(f, "k {k} r {r} d {d} t {t} w {w}")
    }
}

// Codes that look random, one for each cell of the data.
fn some_data<F: Field>(heap: Global, numbers: &Numbers) -> Result<Rows, AllocError> {
    let mut data = Rows::new(heap, numbers);
    let mut x = 12345u32;
    for _ in 0..numbers.data_rows() {
        let mut row = Vec::new(heap);
        for _ in 0..numbers.width() {
            x = x.wrapping_mul(1103515245).wrapping_add(12345);
            row.push(F::code(F::element((x >> 16) as u16)))?;
        }
        data.push_row(&row)?;
    }
    Ok(data)
}

// Whether the settled blocks and the data read back are those that were loaded.
fn holds<F: Field>(heap: Global, case: Case) -> Result<bool, Stop> {
    let numbers = Numbers::new(case.k, case.r, case.d, case.t, case.w)?;
    let data = some_data::<F>(heap, &numbers)?;
    let task = whole_task::<F>(heap, &numbers, data, case.shift)?;
    Ok(task.settled == task.blocks && task.read == task.data)
}

// A line on each task: its numbers, and whether it held.
pub(crate) fn edges<F: Field>(rt: &HostRuntime, name: &str, cases: &[Case]) -> anyhow::Result<()> {
    for case in cases {
        let held = if holds::<F>(rt.alloc(), *case)? {
            "settled and read back as loaded"
        } else {
            "OTHERWISE"
        };
        println!(rt; "  {name} {case}: {held}")?;
    }
    Ok(())
}
