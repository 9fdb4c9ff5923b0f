use std::fmt::{Debug, Display};
use std::process::Abort;

/// Expects that something has a value. An `assert_eq!` in each place would take the prover several
/// times as long as this call does.
pub fn expect<W: Display + Drop, T: PartialEq + Debug + Drop>(
    rt: &impl Abort,
    what: W,
    got: T,
    want: T,
) {
    assert_eq!(rt; got, want, "{what}");
}
