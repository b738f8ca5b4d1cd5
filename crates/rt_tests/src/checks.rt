// Assertions of one call each: what a test costs its proof goes by its points times what lives at each, and an
// `assert_eq!` that stands in it has many points.
ghost use Rattle.std.specs.Prelude.{◌≡◌};

use std::fmt::Debug;
use std::process::Abort;

/// Stops a test where what was found isn't what is wanted, and tells both.
pub(crate) fn same<T>(rt: &impl Abort, found: T, wanted: T)
where
    T: PartialEq + Debug + Copy,
{
    assert_eq!(rt; found, wanted);
}

/// `same` in a row of a table, which is told too.
pub(crate) fn same_in<T>(rt: &impl Abort, found: T, wanted: T, row: &str)
where
    T: PartialEq + Debug + Copy,
{
    assert_eq!(rt; found, wanted, "in {row:?}");
}

/// `same` of a length, which is known from then on.
pub(crate) fn same_len(rt: &impl Abort, found: usize, wanted: usize)
    ensures { found ≡ wanted }
{
    assert_eq!(rt; found, wanted);
}
