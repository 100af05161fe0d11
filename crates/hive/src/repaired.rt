// A whole repair, printed step by step.
use crate::job::block_of;
use crate::report::Spaced;
use crate::rows::Rows;
use crate::stop::Stop;
use crate::whole::{Task, whole_task};
use beehive::Numbers;
use field::Field;

// The data, and the blocks that they were loaded into.
fn loaded(rt: &HostRuntime, task: &Task) -> anyhow::Result<()> {
    println!(rt; "   {}", task.data)?;
    for (i, block) in task.blocks.iter().enumerate() {
        println!(rt; "  box {} holds", i + 1)?;
        println!(rt; "   {block}")?;
    }
    Ok(())
}

// The boxes that are lost, what each was sent, and what it settled to.
fn refilled(rt: &HostRuntime, task: &Task) -> anyhow::Result<()> {
    print!(rt; "  boxes")?;
    for newcomer in &task.newcomers {
        print!(rt; " {}", newcomer.at)?;
    }
    rt.println(" are lost")?;
    for newcomer in &task.newcomers {
        let at = newcomer.at;
        println!(rt;
            "  box {at} gets, from boxes{}, and then passed",
            Spaced(&task.helpers)
        )?;
        println!(rt; "   {}", newcomer.helps)?;
        println!(rt; "   {}", newcomer.passes)?;
        rt.println("  and settles to")?;
        if let Some(block) = block_of(&task.settled, at) {
            println!(rt; "   {block}")?;
        }
    }
    Ok(())
}

// What became of the blocks, and the data that are read back.
fn ended(rt: &HostRuntime, task: &Task) -> anyhow::Result<()> {
    let whole = if task.settled == task.blocks {
        "as they were"
    } else {
        "OTHERWISE"
    };
    println!(rt;
        "  all blocks are {whole}; boxes{} give back",
        Spaced(&task.from)
    )?;
    println!(rt; "   {}", task.read)?;
    Ok(())
}

// Loads the data, loses boxes 1 and 2 of six, refills them, and reads the data back from boxes 1, 2 and 3: k = 3, r = 3, d = 4,
// t = 2, rows of two symbols.
pub(crate) fn repaired<F: Field>(
    rt: &HostRuntime,
    name: &str,
    symbols: &[u16],
) -> anyhow::Result<()> {
    let numbers = Numbers::new(3, 3, 4, 2, 2).map_err(Stop::from)?;
    let mut data = Rows::new(rt.alloc(), &numbers);
    data.push_row(symbols)?;
    let task = whole_task::<F>(rt.alloc(), &numbers, data, 0)?;
    println!(rt; "{name} field, rows of two symbols; the data are")?;
    loaded(rt, &task)?;
    refilled(rt, &task)?;
    ended(rt, &task)
}
