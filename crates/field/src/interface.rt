// What every field offers, and what it owes: the operations are those of `ops`, and `ops` has the laws of a field.
ghost use Rattle.std.specs.Prelude.{◌≡◌, ℕ, ◌≤◌, true, MatchOption, ◌≢◌};
ghost use Rattle.field.specs.Laws.{Ops, Laws, NoRoot};

// A finite field of characteristic two, of 2^m elements.
pub trait Field {
    type Elem: Copy;

    ghost ops: { Ops Self.Elem };

    // The number m of bits of a code.
    fn bits() -> u32
        ensures { result ≡ ops.bits };

    fn zero() -> Self::Elem
        ensures { result ≡ ops.zero };

    fn one() -> Self::Elem
        ensures { result ≡ ops.one };

    fn add(a: Self::Elem, b: Self::Elem) -> Self::Elem
        ensures { result ≡ ops.add a b };

    fn mul(a: Self::Elem, b: Self::Elem) -> Self::Elem
        ensures { result ≡ ops.mul a b };

    // A function of the interface, which asks `Copy` alone of an element: `==` would ask more of who offers a field.
    fn equal(a: Self::Elem, b: Self::Elem) -> bool
        ensures { (result ≡ true → a ≡ b) × (a ≡ b → result ≡ true) };

    // The inverse, which zero alone lacks.
    fn inverse(a: Self::Elem) -> Option<Self::Elem>
        ensures { MatchOption result (a ≡ ops.zero) (λ i. (i ≡ ops.inv a) × (a ≢ ops.zero)) };

    fn code(a: Self::Elem) -> u16
        ensures { result ≡ ops.code a };

    // The element whose code is the m low bits of the number.
    fn element(n: u16) -> Self::Elem
        ensures { result ≡ ops.element n };

    ghost range: { (1 ≤ ops.bits) × (ops.bits ≤ 16) };

    ghost laws: { Laws ops };
}

// A field of at most 2^8 elements with an element ν that is no y·y + y: pairs over it make a field again. The project asks for
// an interface that stands alone, so that it has the functions of `Field` once more.
pub trait Extensible {
    type Elem: Copy;

    ghost ops: { Ops Self.Elem };

    ghost nu: { Self.Elem };

    // The number m of bits of a code.
    fn bits() -> u32
        ensures { result ≡ ops.bits };

    fn zero() -> Self::Elem
        ensures { result ≡ ops.zero };

    fn one() -> Self::Elem
        ensures { result ≡ ops.one };

    fn nu() -> Self::Elem
        ensures { result ≡ nu };

    fn add(a: Self::Elem, b: Self::Elem) -> Self::Elem
        ensures { result ≡ ops.add a b };

    fn mul(a: Self::Elem, b: Self::Elem) -> Self::Elem
        ensures { result ≡ ops.mul a b };

    fn equal(a: Self::Elem, b: Self::Elem) -> bool
        ensures { (result ≡ true → a ≡ b) × (a ≡ b → result ≡ true) };

    // The inverse, which zero alone lacks.
    fn inverse(a: Self::Elem) -> Option<Self::Elem>
        ensures { MatchOption result (a ≡ ops.zero) (λ i. (i ≡ ops.inv a) × (a ≢ ops.zero)) };

    fn code(a: Self::Elem) -> u16
        ensures { result ≡ ops.code a };

    // The element whose code is the m low bits of the number.
    fn element(n: u16) -> Self::Elem
        ensures { result ≡ ops.element n };

    ghost range: { (1 ≤ ops.bits) × (ops.bits ≤ 8) };

    ghost laws: { Laws ops };

    ghost rootless: { NoRoot ops nu };
}
