// The elements of the fields of polynomials.
ghost use Rattle.std.specs.Prelude.{◌^◌, ◌<◌};

// A polynomial over the field of two elements, of degree below M: bit i of the code is the coefficient of X^i.
#[derive(Clone, Copy)]
pub struct Residue<const M: u8> {
    pub(crate) code: u8,
    ghost ok: { code < 2 ^ M },
}
