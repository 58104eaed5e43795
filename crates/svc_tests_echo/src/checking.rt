//! What tests assert. A call of these is proved in less time than an assertion that stands in a test.

ghost use Rattle.std.specs.Prelude.{◌≡◌, true};

use std::fmt;
use std::process::Abort;
use std::string::ToString;

/// Stops where the fact doesn't hold.
pub fn holds<R: Abort>(rt: &R, fact: bool)
    ensures { fact ≡ true }
{
    assert!(rt; fact);
}

/// Stops where the two differ, and prints both.
pub fn same<R: Abort, T: PartialEq + fmt::Debug + Drop>(rt: &R, left: T, right: T) {
    assert_eq!(rt; left, right);
}

/// Stops where the value isn't printed as this text.
pub fn prints<R: Abort + AllocGlobal, D: fmt::Display + Drop>(rt: &R, value: D, text: &str) {
    let printed = value.to_string(rt.alloc()).expect(rt, "a text");
    assert_eq!(rt; printed.as_str(), text);
}
