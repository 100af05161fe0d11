// What is printed of each task.
use field::Field;
use gateways::spread;
use std::fmt;

// How many gateways keep a record, which are lost, and which answer.
const GATEWAYS: u16 = 7;

const LOST: [u16; 2] = [1, 4];

const ANSWERING: [u16; 5] = [7, 2, 5, 3, 6];

// Numbers in a line, each after a space.
#[derive(Clone, Copy)]
pub(crate) struct Spaced<'a>(pub(crate) &'a [u16]);

impl fmt::Display for Spaced<'_> {
    fn fmt<W: fmt::Write>(&self, f: &mut fmt::Formatter<W>) -> fmt::Result {
        for n in self.0 {
            write!(f, " {n}")?;
        }
        Ok(())
    }
}

// Spreads a batch record over gateways by one field, and says each step.
pub(crate) fn batch_record<F: Field>(
    rt: &HostRuntime,
    name: &str,
    batch: &[u16],
) -> anyhow::Result<()> {
    let heap = rt.alloc();
    let bits = F::bits();
    println!(rt; "{name} field, {bits} bits a symbol")?;
    println!(rt; "  record:{}", Spaced(batch))?;
    let kept = spread::<F>(heap, batch, GATEWAYS, &ANSWERING)?;
    for (i, value) in kept.held.iter().enumerate() {
        println!(rt; "  gateway {} holds {value}", i + 1)?;
    }
    println!(rt; "  lost:{}", Spaced(&LOST))?;
    println!(rt; "  answering:{}", Spaced(&ANSWERING))?;
    println!(rt; "  came back:{}", Spaced(&kept.back))?;
    Ok(())
}
