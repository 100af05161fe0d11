// What the solver rests on, for every field: each contract is a theorem, and the answer is only 0.
ghost use Rattle.algebra.specs.Poly.{RootCount, Existence, Uniqueness, Interpolation, Vandermonde};

use field::Field;

// A polynomial of m coefficients with m different roots is zero.
pub fn root_count_stands<F: Field>() -> u8
    ensures { RootCount F.Field.ops }
{
    0
}

// Through any values at m different points goes a polynomial of m coefficients.
pub fn polynomial_exists<F: Field>() -> u8
    ensures { Existence F.Field.ops }
{
    0
}

// It is the only one.
pub fn polynomial_unique<F: Field>() -> u8
    ensures { Uniqueness F.Field.ops }
{
    0
}

// Its value at any point is the sum of the given values times those of the Lagrange polynomials there.
pub fn interpolation_stands<F: Field>() -> u8
    ensures { Interpolation F.Field.ops }
{
    0
}

// The Lagrange polynomials are the rows of the inverse of the Vandermonde matrix.
pub fn vandermonde_inverted<F: Field>() -> u8
    ensures { Vandermonde F.Field.ops }
{
    0
}
