// The pair field: two elements of a base field kept together, low + high·z, where z·z = z + ν.
ghost use Rattle.std.specs.Prelude.{◌≡◌, ℕ, ◌+◌, ◌*◌, ◌^◌, ◌≤◌, MatchOption, ◌≢◌};
ghost use Rattle.field.specs.Pairs.{norm, pairs};
ghost use Rattle.field.specs.PairsLemmas.{pair_laws};
ghost use Rattle.std.proofs.Common.{rules};

use crate::interface::{Extensible, Field};

// With the base's elements for E, an element of the pair field; with the base field B itself, `Pair<B>` names the
// field over it.
#[derive(Clone, Copy)]
pub struct Pair<E> {
    low: E,
    high: E,
}

// (low + high·z)·(low + high + high·z), which lies in the base field.
fn norm_of<B: Extensible>(a: Pair<B::Elem>) -> B::Elem
    ensures { result ≡ norm B.Extensible.ops B.Extensible.nu a.low a.high }
{
    let both = B::add(a.low, a.high);
    B::add(B::mul(a.low, both), B::mul(B::nu(), B::mul(a.high, a.high)))
}

// The inverse of the norm: zero alone has the norm zero, since no y·y + y is ν.
fn norm_inverse<B: Extensible>(a: Pair<B::Elem>) -> Option<B::Elem>
    ensures { MatchOption result (a ≡ (pairs B.Extensible.ops B.Extensible.nu).zero) (λ i. (i ≡ B.Extensible.ops.inv (norm B.Extensible.ops B.Extensible.nu a.low a.high)) × (a ≢ (pairs B.Extensible.ops B.Extensible.nu).zero)) }
{
    B::inverse(norm_of::<B>(a))
}

// The code of an element in the place of the high one.
fn raised<B: Extensible>(a: B::Elem) -> u16
    ensures value { result ≡ 2 ^ B.Extensible.ops.bits * B.Extensible.ops.code a }
    ensures bound { result + 2 ^ B.Extensible.ops.bits ≤ 2 ^ 16 }
{
    B::code(a) << B::bits()
}

impl<B: Extensible> Field for Pair<B> {
    type Elem = Pair<B::Elem>;

    ghost ops = { pairs B.Extensible.ops B.Extensible.nu };

    ghost range = { Prim.search rules };

    ghost laws = { pair_laws B.Extensible.laws B.Extensible.nu B.Extensible.rootless };

    fn bits() -> u32 {
        B::bits() + B::bits()
    }

    fn zero() -> Pair<B::Elem> {
        Pair {
            low: B::zero(),
            high: B::zero(),
        }
    }

    fn one() -> Pair<B::Elem> {
        let low = B::one();
        let high = B::zero();
        Pair { low, high }
    }

    fn add(a: Pair<B::Elem>, b: Pair<B::Elem>) -> Pair<B::Elem> {
        Pair {
            low: B::add(a.low, b.low),
            high: B::add(a.high, b.high),
        }
    }

    fn mul(a: Pair<B::Elem>, b: Pair<B::Elem>) -> Pair<B::Elem> {
        let tops = B::mul(a.high, b.high);
        Pair {
            low: B::add(B::mul(a.low, b.low), B::mul(B::nu(), tops)),
            high: B::add(B::add(B::mul(a.low, b.high), B::mul(a.high, b.low)), tops),
        }
    }

    fn equal(a: Pair<B::Elem>, b: Pair<B::Elem>) -> bool {
        B::equal(a.low, b.low) && B::equal(a.high, b.high)
    }

    fn inverse(a: Pair<B::Elem>) -> Option<Pair<B::Elem>> {
        let i = norm_inverse::<B>(a)?;
        Some(Pair {
            low: B::mul(B::add(a.low, a.high), i),
            high: B::mul(a.high, i),
        })
    }

    fn code(a: Pair<B::Elem>) -> u16 {
        B::code(a.low) + raised::<B>(a.high)
    }

    fn element(n: u16) -> Pair<B::Elem> {
        Pair {
            low: B::element(n),
            high: B::element(n >> B::bits()),
        }
    }
}
