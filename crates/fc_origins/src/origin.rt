//! By which write a block came.

ghost use Rattle.fc_origins.specs.Origins.{origin_of};

use fc_check_picture::mark::Mark;

/// By which write the bytes of a block came.
#[derive(Clone, Copy, PartialEq, Eq)]
pub struct Origin {
    /// The number of the write's entry; None where no write made them, so that they are zeros.
    pub write: Option<u32>,
}

impl Mark for Origin {
    ghost number = { λ origin. origin_of origin.write };

    fn zero() -> Origin {
        Origin { write: None }
    }
}
