// A field of polynomials as one that can be extended: the same operations, and ν. As the interface stands alone, each is handed
// on here once more, in a line.
ghost use Rattle.field.specs.Residues.{modulo};
ghost use Rattle.field.specs.Fields;
ghost use Rattle.field.specs.Fields.{no_root};
ghost use Rattle.std.proofs.Common.{rules};

use crate::interface::Extensible;
use crate::tabled::{Tabled, Tables, inverted, product, same, sum};

impl<T: Tables> Extensible for Tabled<T> {
    type Elem = T::Elem;

    ghost ops = { modulo T.Tables.m T.Tables.p T.Tables.code T.Tables.element };

    ghost nu = { T.Tables.element T.Tables.nu };

    ghost range = { Prim.search rules };

    ghost laws = { Fields.laws T.Tables.modulus T.Tables.coded };

    ghost rootless = { let t = T.Tables in
        no_root t.modulus t.coded T.Tables.nu t.within t.rootless };

    fn bits() -> u32 {
        T::bits()
    }

    fn zero() -> T::Elem {
        T::element(0)
    }

    fn one() -> T::Elem {
        T::element(1)
    }

    fn nu() -> T::Elem {
        T::element(T::nu())
    }

    fn add(a: T::Elem, b: T::Elem) -> T::Elem {
        sum::<T>(a, b)
    }

    fn mul(a: T::Elem, b: T::Elem) -> T::Elem {
        product::<T>(a, b)
    }

    fn equal(a: T::Elem, b: T::Elem) -> bool {
        same::<T>(a, b)
    }

    fn inverse(a: T::Elem) -> Option<T::Elem> {
        inverted::<T>(a)
    }

    fn code(a: T::Elem) -> u16 {
        u16::from(T::code(a))
    }

    fn element(n: u16) -> T::Elem {
        T::element(n)
    }
}
