// The figures, and the inverse of every element of the nibble field, by the code that runs.
use crate::interface::Field;
use crate::known::figures;
use crate::nibble::Nibbles;
use crate::tabled::Tables;
use std::test::Fail;

#[test]
fn known_figures(rt: HostRuntime) {
    assert_eq!(rt; figures(), [1, 29, 24, 255, 288, 27756]);
}

#[test]
fn nibble_inverses(rt: HostRuntime) -> Result<(), Fail> {
    assert!(rt; Nibbles::inverse(Nibbles::zero()).is_none());
    for n in 1..16 {
        let a = Nibbles::element(n);
        let i = Nibbles::inverse(a).ok_or(n)?;
        assert_eq!(rt; Nibbles::code(Nibbles::mul(a, i)), 1);
    }
    Ok(())
}
