// Runs of the solver: tests over the nibble field and the pairs of bytes, and a program that prints the Lagrange
// polynomials of three points of the nibble field, the lowest coefficient first.
#![tactic(auto)]

#[cfg(test)]
mod tests;

use algebra::{Grid, solve};
use anyhow::Context;
use field::{Field, Nibbles, Tables};

fn main(rt: HostRuntime) -> anyhow::Result<()> {
    run(&rt)
}

fn run(rt: &HostRuntime) -> anyhow::Result<()> {
    let points = [
        Nibbles::element(1),
        Nibbles::element(2),
        Nibbles::element(3),
    ];
    let mut cells = [Nibbles::zero(); 9];
    let mut grid = Grid::over(3, 3, &mut cells);
    solve::<Nibbles>(&points, &mut grid)
        .ok()
        .context("the solver refused three points")?;
    // By number: so a grid gives its rows.
    for i in 0..3 {
        let row = grid.row(i).context("the grid has no such row")?;
        for c in row {
            print!(rt; "{} ", Nibbles::code(*c))?;
        }
        println!(rt; "is 1 at point {} and 0 at the others", i + 1)?;
    }
    Ok(())
}
