// Assertions of one call each: what a test costs its proof goes by its points times what lives at each, and an
// `assert_eq!` that stands in it has many points.
use std::fmt::Debug;
use std::process::Abort;

/// Stops a test where what was found isn't what is wanted, and tells both.
pub(crate) fn same<T>(rt: &impl Abort, found: T, wanted: T)
where
    T: PartialEq + Debug + Copy,
{
    assert_eq!(rt; found, wanted);
}
