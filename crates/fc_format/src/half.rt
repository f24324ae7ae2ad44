//! The two halves of a disk.

ghost use Rattle.std.specs.Prelude.{◌≡◌};
ghost use Rattle.fc_format.specs.Halves.{other_half};

/// A half of the disk.
#[derive(Clone, Copy)]
pub enum Half {
    /// The one that begins the disk.
    First,
    /// The one behind it.
    Second,
}

impl Half {
    /// The other half.
    pub fn other(self) -> Half
        ensures { result ≡ other_half self }
    {
        match self {
            Half::First => Half::Second,
            Half::Second => Half::First,
        }
    }
}
