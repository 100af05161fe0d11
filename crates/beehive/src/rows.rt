// The rule at one symbol position: a row of a block from the matrices, and a segment from a block.
ghost use Rattle.std.specs.Prelude.{◌<◌, ◌≡◌, ◌^◌, ◌≤◌, length, MatchOption};
ghost use Rattle.algebra.specs.Cells.{entry, matrix};
ghost use Rattle.algebra.specs.Poly.{power};
ghost use Rattle.beehive.specs.Numbers.{alpha, tail, beta};
ghost use Rattle.beehive.specs.Points.{dot, powers, mu};
ghost use Rattle.beehive.specs.Rule.{phi_times, segment};
ghost use Rattle.beehive.specs.Matrices.{square, narrow};

use crate::numbers::Numbers;
use crate::points::{inverted, mu_of, point_of};
use algebra::value;
use field::Field;

// Column j of φ·A at node s, where the cells of A are given row after row, cols in a row; past the cells are zeros.
fn column<F: Field>(numbers: &Numbers, s: u32, cells: &[F::Elem], cols: usize, j: usize) -> F::Elem
    requires narrow { cols ≤ 16 }
    requires within { j < 16 }
    ensures { result ≡ dot F.Field.ops (alpha numbers.now) (powers F.Field.ops numbers.now s) (λ i. matrix F.Field.ops cells.now cols i j) }
{
    let p = point_of::<F>(numbers, s);
    let mut sum = F::zero();
    let mut power = F::one();
    // Row i of A begins at i · cols: a chain over every cell of a column would say no more, and past the cells are zeros.
    for i in 0..numbers.alpha() {
        let cell = cells.get(i * cols + j).copied().unwrap_or(F::zero());
        sum = F::add(sum, F::mul(power, cell));
        power = F::mul(p, power);
    }
    sum
}

// Entry j of b(s) = φ·S + μ·φ·T: none past α, and none at a node past the largest.
pub fn first_entry<F: Field>(
    numbers: &Numbers,
    s: u32,
    free: &[F::Elem],
    times_mu: &[F::Elem],
    j: usize,
) -> Option<F::Elem>
    ensures { MatchOption result ((s < 2 ^ 16) × (j < alpha numbers.now) → ⊥)
        (λ v. (s < 2 ^ 16) × (j < alpha numbers.now) × (v ≡ F.Field.ops.add (phi_times F.Field.ops numbers.now s (square F.Field.ops numbers.now free.now) j)
        (F.Field.ops.mul (mu F.Field.ops numbers.now s) (phi_times F.Field.ops numbers.now s (square F.Field.ops numbers.now times_mu.now) j)))) }
{
    let alpha = numbers.alpha();
    if s >= 65536 || j >= alpha {
        return None;
    }
    let low = column::<F>(numbers, s, free, alpha, j);
    let high = column::<F>(numbers, s, times_mu, alpha, j);
    Some(F::add(low, F::mul(mu_of::<F>(numbers, s), high)))
}

// Entry q of c(s) = φ·Z: none past t − 1, and none at a node past the largest.
pub fn second_entry<F: Field>(
    numbers: &Numbers,
    s: u32,
    cells: &[F::Elem],
    q: usize,
) -> Option<F::Elem>
    ensures { MatchOption result ((s < 2 ^ 16) × (q < tail numbers.now) → ⊥)
        (λ v. (s < 2 ^ 16) × (q < tail numbers.now) × (v ≡ phi_times F.Field.ops numbers.now s (narrow F.Field.ops numbers.now cells.now) q)) }
{
    if s >= 65536 || q >= numbers.tail() {
        return None;
    }
    Some(column::<F>(numbers, s, cells, numbers.tail(), q))
}

// φ(j)·b or h(j)·c, for the part b or c of a block.
fn along<F: Field>(numbers: &Numbers, j: u32, part: &[F::Elem]) -> F::Elem
    ensures { result ≡ dot F.Field.ops (length part.now) (powers F.Field.ops numbers.now j) (entry F.Field.ops part.now) }
{
    value::<F>(part, point_of::<F>(numbers, j))
}

// The segment from node i, which holds the block, about node j: h(j)·c(i) + (μ(i) − μ(j))⁻¹ (φ(j)·b(i)). None where the
// block is not of β entries, and none at a node past the largest.
pub fn segment_of<F: Field>(numbers: &Numbers, i: u32, j: u32, block: &[F::Elem]) -> Option<F::Elem>
    ensures { MatchOption result ((i < 2 ^ 16) × (j < 2 ^ 16) × (length block.now ≡ beta numbers.now) → ⊥)
        (λ v. (i < 2 ^ 16) × (j < 2 ^ 16) × (length block.now ≡ beta numbers.now) × (v ≡ segment F.Field.ops numbers.now (λ s k. entry F.Field.ops block.now k) i j)) }
{
    if i >= 65536 || j >= 65536 || block.len() != numbers.beta() {
        return None;
    }
    let (first, second) = block.split_at(numbers.alpha());
    let apart = F::add(mu_of::<F>(numbers, i), mu_of::<F>(numbers, j));
    let head = F::mul(inverted::<F>(apart), along::<F>(numbers, j, first));
    Some(F::add(along::<F>(numbers, j, second), head))
}
