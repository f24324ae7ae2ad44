//! What a block holds.

ghost use Rattle.std.specs.Prelude.{◌≡◌, ℕ};

/// What a block of a plain volume holds: one value, which stands for each of its bytes.
pub trait Mark: Copy {
    /// The number for which it stands.
    ghost number: { Self → ℕ };

    /// What a block holds that no write has reached.
    fn zero() -> Self
        ensures { number result ≡ 0 };
}

impl Mark for u8 {
    ghost number = { λ byte. byte };

    fn zero() -> u8 {
        0
    }
}
