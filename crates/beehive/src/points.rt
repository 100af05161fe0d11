// The points of the nodes, and whether a field has enough of them.
ghost use Rattle.std.specs.Prelude.{◌<◌, ◌+◌, ◌≡◌, ℕ, ◌≤◌, true, false, ◌≢◌};
ghost use Rattle.algebra.specs.Poly.{power};
ghost use Rattle.beehive.specs.Numbers.{boxes, virtuals, node};
ghost use Rattle.beehive.specs.Points.{point, mu, Enough, MusDiffer, Fitting};

use crate::numbers::Numbers;
use field::Field;
use refusal::Denial;

// The node of box i.
pub fn node_of(numbers: &Numbers, i: u16) -> u32
    ensures { result ≡ node numbers.now i }
{
    numbers.virtuals() as u32 + i as u32
}

// The last node: how many there are.
fn last_node(numbers: &Numbers) -> u32
    ensures value { result ≡ virtuals numbers.now + boxes numbers.now }
    ensures bound { result < 32 }
{
    (numbers.virtuals() + numbers.boxes()) as u32
}

// The point of node s.
pub fn point_of<F: Field>(numbers: &Numbers, s: u32) -> F::Elem
    ensures { result ≡ point F.Field.ops numbers.now s }
{
    F::element((s % 65536) as u16)
}

// x to the power of n.
pub fn raised<F: Field>(x: F::Elem, n: usize) -> F::Elem
    ensures { result ≡ power F.Field.ops x n }
{
    let mut all = F::one();
    for _i in 0..n {
        all = F::mul(x, all);
    }
    all
}

// The inverse, and zero for zero.
pub fn inverted<F: Field>(x: F::Elem) -> F::Elem
    ensures { result ≡ F.Field.ops.inv x }
{
    F::inverse(x).unwrap_or(F::zero())
}

// μ of node s, its point to the power of α.
pub fn mu_of<F: Field>(numbers: &Numbers, s: u32) -> F::Elem
    ensures { result ≡ mu F.Field.ops numbers.now s }
{
    raised::<F>(point_of::<F>(numbers, s), numbers.alpha())
}

// Whether no node before node s has its μ. So `algebra::distinct` does it for a list: one function over both would take the values
// as a closure, and be no plainer.
fn new_mu<F: Field>(numbers: &Numbers, s: u32) -> bool
    ensures yes { result ≡ true → (u : ℕ) → 1 ≤ u → u < s → mu F.Field.ops numbers.now u ≢ mu F.Field.ops numbers.now s }
    ensures no { result ≡ false → (u : ℕ) × (1 ≤ u) × (u < s) × (mu F.Field.ops numbers.now u ≡ mu F.Field.ops numbers.now s) }
{
    let here = mu_of::<F>(numbers, s);
    !(1..s).any(|u| F::equal(mu_of::<F>(numbers, u), here))
}

// Whether no two of the nodes have the same μ.
fn new_mus<F: Field>(numbers: &Numbers) -> bool
    ensures { (result ≡ true → MusDiffer F.Field.ops numbers.now) × (result ≡ false → MusDiffer F.Field.ops numbers.now → ⊥) }
{
    let nodes = last_node(numbers);
    (1..nodes + 1).all(|s| new_mu::<F>(numbers, s))
}

// Whether the field has more elements than there are nodes.
fn enough<F: Field>(numbers: &Numbers) -> bool
    ensures { (result ≡ true → Enough F.Field.ops numbers.now) × (result ≡ false → Enough F.Field.ops numbers.now → ⊥) }
{
    let count = last_node(numbers);
    count < 1 << F::bits()
}

// Whether the field has a point for each node, with all μ different: else `Points`.
pub fn suits<F: Field>(numbers: &Numbers) -> Result<(), Denial>
    ensures { Fitting F.Field.ops numbers.now result }
{
    if !enough::<F>(numbers) || !new_mus::<F>(numbers) {
        return Err(Denial::Points);
    }
    Ok(())
}
