// Fields of polynomials modulo p, through tables of logarithms and powers of X: one text for every modulus.
ghost use Rattle.std.specs.Prelude.{◌≡◌, ℕ, ◌+◌, ◌-◌, ◌^◌, ◌<◌, ◌≤◌, true, MatchOption, ◌≢◌};
ghost use Rattle.field.specs.Polynomials.{product, inverse, power};
ghost use Rattle.field.specs.Residues.{Coded, Modulus, Rootless, modulo};
ghost use Rattle.field.specs.Fields;
ghost use Rattle.std.proofs.Common.{rules};

use crate::interface::Field;

// The tables of a modulus p of degree m, of which X is a generator, and the elements modulo p. An implementation says its own
// numbers and tables, each function in a line: no const parameter can hold a table.
pub trait Tables {
    type Elem: Copy;

    ghost m: { ℕ };

    ghost p: { ℕ };

    ghost nu: { ℕ };

    ghost code: { Self.Elem → ℕ };

    ghost element: { ℕ → Self.Elem };

    fn bits() -> u32
        ensures { result ≡ m };

    fn nu() -> u16
        ensures { result ≡ nu };

    fn element(n: u16) -> Self::Elem
        ensures { result ≡ element n };

    fn code(a: Self::Elem) -> u8
        ensures { result ≡ code a };

    // The exponent of X that gives the polynomial a.
    fn log(a: u8) -> u8
        requires some { 0 < a }
        requires small { a < 2 ^ m }
        ensures value { power m p result ≡ a }
        ensures bound { result < 2 ^ m - 1 };

    // X to the power of k, which is the sum of two logarithms.
    fn power(k: usize) -> u8
        requires { k < (2 ^ m - 1) + (2 ^ m - 1) }
        ensures { result ≡ power m p k };

    ghost few: { m ≤ 8 };

    ghost coded: { Coded m code element };

    ghost modulus: { Modulus m p };

    ghost round: { power m p (2 ^ m - 1) ≡ 1 };

    ghost within: { nu < 2 ^ m };

    ghost rootless: { Rootless m p nu };
}

// The field that the tables T give.
pub struct Tabled<T> {
    tables: T,
}

pub(crate) fn sum<T: Tables>(a: T::Elem, b: T::Elem) -> T::Elem
    ensures { result ≡ (modulo T.Tables.m T.Tables.p T.Tables.code T.Tables.element).add a b }
{
    T::element(T::code(a) as u16 ^ T::code(b) as u16)
}

// The product of X^i and X^j.
fn power_product<T: Tables>(i: u8, j: u8) -> u8
    requires { (i < 2 ^ T.Tables.m - 1) × (j < 2 ^ T.Tables.m - 1) }
    ensures { result ≡ product T.Tables.m T.Tables.p (power T.Tables.m T.Tables.p i) (power T.Tables.m T.Tables.p j) }
{
    T::power(i as usize + j as usize)
}

pub(crate) fn product<T: Tables>(a: T::Elem, b: T::Elem) -> T::Elem
    ensures { result ≡ (modulo T.Tables.m T.Tables.p T.Tables.code T.Tables.element).mul a b }
{
    let x = T::code(a);
    let y = T::code(b);
    if x == 0 || y == 0 {
        return T::element(0);
    }
    T::element(power_product::<T>(T::log(x), T::log(y)) as u16)
}

pub(crate) fn same<T: Tables>(a: T::Elem, b: T::Elem) -> bool
    ensures { (result ≡ true → a ≡ b) × (a ≡ b → result ≡ true) }
{
    T::code(a) == T::code(b)
}

// The inverse of X^i, which is X to the power of 2^m - 1 - i.
fn power_inverse<T: Tables>(i: u8) -> u8
    requires { i < 2 ^ T.Tables.m - 1 }
    ensures { result ≡ inverse T.Tables.m T.Tables.p (power T.Tables.m T.Tables.p i) }
{
    let order = (1 << T::bits()) - 1;
    T::power(order - i as usize)
}

pub(crate) fn inverted<T: Tables>(a: T::Elem) -> Option<T::Elem>
    ensures { MatchOption result (a ≡ T.Tables.element 0) (λ i. (i ≡ (modulo T.Tables.m T.Tables.p T.Tables.code T.Tables.element).inv a) × (a ≢ T.Tables.element 0)) }
{
    if same::<T>(a, T::element(0)) {
        return None;
    }
    let x = T::code(a);
    Some(T::element(power_inverse::<T>(T::log(x)) as u16))
}

impl<T: Tables> Field for Tabled<T> {
    type Elem = T::Elem;

    ghost ops = { modulo T.Tables.m T.Tables.p T.Tables.code T.Tables.element };

    ghost range = { Prim.search rules };

    ghost laws = { Fields.laws T.Tables.modulus T.Tables.coded };

    fn bits() -> u32 {
        T::bits()
    }

    fn zero() -> T::Elem {
        T::element(0)
    }

    fn one() -> T::Elem {
        T::element(1)
    }

    fn add(a: T::Elem, b: T::Elem) -> T::Elem {
        sum::<T>(a, b)
    }

    fn mul(a: T::Elem, b: T::Elem) -> T::Elem {
        product::<T>(a, b)
    }

    fn equal(a: T::Elem, b: T::Elem) -> bool {
        same::<T>(a, b)
    }

    fn inverse(a: T::Elem) -> Option<T::Elem> {
        inverted::<T>(a)
    }

    fn code(a: T::Elem) -> u16 {
        u16::from(T::code(a))
    }

    fn element(n: u16) -> T::Elem {
        T::element(n)
    }
}
