//! What has a key.

ghost use Rattle.std.specs.Prelude.{◌≡◌, ℕ};

/// What has a key, by which it is kept in order.
pub trait Keyed: Drop {
    ghost key_of: { Self → ℕ };

    /// The key.
    fn key(&self) -> u64
        ensures { result ≡ key_of self.now };
}

impl Keyed for u64 {
    ghost key_of = { λ n. n };

    fn key(&self) -> u64 {
        *self
    }
}
