//! What a run of the program leaves for who explains how it ended.

ghost use Rattle.std.specs.Prelude.{◌≡◌, [], string_bytes};

use std::alloc::Global;

/// What was read, and what was made to be written.
#[derive(Drop)]
pub struct KeptTexts {
    /// What was read.
    pub script: Vec<u8>,
    /// What was to be written.
    pub text: String,
}

impl KeptTexts {
    /// Nothing was read so far, nor made.
    pub fn new(alloc: Global) -> Self
        ensures script { result.script.items ≡ [] }
        ensures text { string_bytes result.text ≡ [] }
    {
        KeptTexts {
            script: Vec::new(alloc),
            text: String::new(alloc),
        }
    }
}
