// A record spread over gateways: gateway i keeps the value at the point of code i of the polynomial whose coefficients
// are the record's symbols. Any as many gateways as the record has symbols give it back.
ghost use Rattle.std.specs.Prelude.{◌<◌, ◌≡◌, ℕ, ◌+◌, ◌-◌, ◌^◌, true, map, length, IfOk, vec_len, OnOk, Some};
ghost use Rattle.algebra.specs.Cells.{entry};
ghost use Rattle.algebra.specs.Poly.{Apart, poly, Through};
ghost use Rattle.gateways.specs.Spread.{AllBelow, Named};
ghost use Rattle.gateways.specs.Messages.{message};
ghost use Rattle.gateways.specs.declared.batch.Trouble.TheVariants.{Memory, Answers};

use algebra::{Unsolved, interpolate, value};
use field::Field;
use std::alloc::{AllocError, AllocFailed, Global};
use std::error::Error;
use std::fmt;

// Why a record does not come back.
#[derive(Clone, Copy, PartialEq, Eq, Debug)]
pub enum Trouble {
    // There is no memory.
    Memory,
    // A symbol of the record is no code of the field.
    Symbol,
    // A gateway that should answer does not exist.
    Gateway(u16),
    // The gateways that answer are not as many as the record has symbols, or one is named twice.
    Answers,
}

impl fmt::Display for Trouble {
    ghost output = { λ t. Some (message t) };

    fn fmt<W: fmt::Write>(&self, f: &mut fmt::Formatter<W>) -> fmt::Result {
        match self {
            Trouble::Memory => write!(f, "no memory"),
            Trouble::Symbol => write!(f, "a symbol of the record is no code of the field"),
            Trouble::Gateway(_) => write!(f, "there is no such gateway"),
            Trouble::Answers => write!(f, "the gateways that answer do not fix the record"),
        }
    }
}

impl Error for Trouble {}

impl From<AllocError> for Trouble {
    ghost from_gives = { λ _ e. e ≡ Memory };

    fn from(_e: AllocError) -> Trouble {
        Trouble::Memory
    }
}

impl<T: Drop> From<AllocFailed<T>> for Trouble {
    ghost from_gives = { λ _ e. e ≡ Memory };

    fn from(_e: AllocFailed<T>) -> Trouble {
        Trouble::Memory
    }
}

impl From<Unsolved> for Trouble {
    ghost from_gives = { λ _ e. e ≡ Answers };

    fn from(_e: Unsolved) -> Trouble {
        Trouble::Answers
    }
}

// The elements with these codes.
pub fn elements<F: Field>(heap: Global, codes: &[u16]) -> Result<Vec<F::Elem>, AllocError>
    ensures { IfOk result (λ v. v.items ≡ map F.Field.ops.element codes.now) }
{
    codes.iter().map(|c| F::element(*c)).collect(heap)
}

// The codes of these elements.
pub fn codes<F: Field>(heap: Global, elements: &[F::Elem]) -> Result<Vec<u16>, AllocError>
    ensures { IfOk result (λ v. v.items ≡ map F.Field.ops.code elements.now) }
{
    elements.iter().map(|e| F::code(*e)).collect(heap)
}

fn zeros<F: Field>(heap: Global, n: usize) -> Result<Vec<F::Elem>, AllocError>
    ensures { IfOk result (λ v. vec_len v ≡ n) }
{
    (0..n).map(|_| F::zero()).collect(heap)
}

// What gateways 1 to n hold of the polynomial.
fn held<F: Field>(heap: Global, batch: &[F::Elem], n: u16) -> Result<Vec<F::Elem>, AllocError>
    ensures len { IfOk result (λ v. vec_len v ≡ n) }
    ensures value { IfOk result (λ v. (k : ℕ) → k < n → entry F.Field.ops v.items k ≡ poly F.Field.ops (length batch.now) (entry F.Field.ops batch.now) (F.Field.ops.element (k + 1))) }
{
    (1..=n)
        .map(|i| value::<F>(batch, F::element(i)))
        .collect(heap)
}

// What the gateways that answer hold, in the order in which they are named.
fn answers<F: Field>(
    heap: Global,
    held: &[F::Elem],
    answering: &[u16],
) -> Result<Vec<F::Elem>, Trouble>
    ensures value { IfOk result (λ v. v.items ≡ map (λ a. entry F.Field.ops held.now (a - 1)) answering.now) }
    ensures named { OnOk result (Named (length held.now) answering.now) }
{
    let mut v = Vec::new(heap);
    for a in answering {
        // No gateway is 0: its place wraps past the end.
        let place = usize::from(*a).wrapping_sub(1);
        v.push(*held.get(place).ok_or(Trouble::Gateway(*a))?)?;
    }
    Ok(v)
}

// The polynomial through what was answered, by the solver.
fn restored<F: Field>(
    heap: Global,
    points: &[F::Elem],
    values: &[F::Elem],
) -> Result<Vec<F::Elem>, Trouble>
    ensures len { IfOk result (λ v. vec_len v ≡ length points.now) }
    ensures apart { IfOk result (λ v. Apart (length points.now) (entry F.Field.ops points.now)) }
    ensures value { IfOk result (λ v. Through F.Field.ops (length points.now) (entry F.Field.ops points.now) (entry F.Field.ops values.now) (entry F.Field.ops v.items)) }
{
    let mut f = zeros::<F>(heap, points.len())?;
    let mut scratch = zeros::<F>(heap, points.len())?;
    interpolate::<F>(points, values, f.as_mut_slice(), scratch.as_mut_slice())?;
    Ok(f)
}

// Whether every symbol is a code of the field.
fn all_codes<F: Field>(batch: &[u16]) -> bool
    ensures { result ≡ true → AllBelow (2 ^ F.Field.ops.bits) batch.now }
{
    batch.iter().all(|s| F::code(F::element(*s)) == *s)
}

// What each of the n gateways holds, and what the answering ones give back, by their codes.
#[derive(Drop)]
pub struct Kept {
    pub held: Vec<u16>,
    pub back: Vec<u16>,
}

// Spreads the batch record over n gateways, and gets it back from those that answer, whatever the others hold: what comes back
// is the record.
pub fn spread<F: Field>(
    heap: Global,
    batch: &[u16],
    n: u16,
    answering: &[u16],
) -> Result<Kept, Trouble>
    ensures { IfOk result (λ s. s.back.items ≡ batch.now) }
{
    if !all_codes::<F>(batch) {
        return Err(Trouble::Symbol);
    }
    if answering.len() != batch.len() {
        return Err(Trouble::Answers);
    }
    let polynomial = elements::<F>(heap, batch)?;
    let held = held::<F>(heap, &polynomial, n)?;
    let points = elements::<F>(heap, answering)?;
    let values = answers::<F>(heap, &held, answering)?;
    let back = restored::<F>(heap, &points, &values)?;
    Ok(Kept {
        held: codes::<F>(heap, &held)?,
        back: codes::<F>(heap, &back)?,
    })
}
