//! Why a text isn't read.

ghost use Rattle.std.specs.Prelude.{◌≡◌};
ghost use Rattle.fc_reading_notes.specs.declared.stop.ReadStop.TheVariants.{Malformed as StopMalformed, NoMemory as StopNoMemory};

use fc_base::outcome::NoMemory;
use fc_reading::pieces::Malformed;

/// Why a text isn't read.
#[derive(Clone, Copy)]
pub enum ReadStop {
    /// The bytes can't go on as they began.
    Malformed(Malformed),
    /// Memory was wanted and not had.
    NoMemory,
}

impl From<Malformed> for ReadStop {
    ghost from_gives = { λ malformed e. e ≡ StopMalformed malformed };

    fn from(malformed: Malformed) -> ReadStop {
        ReadStop::Malformed(malformed)
    }
}

impl From<NoMemory> for ReadStop {
    ghost from_gives = { λ _ e. e ≡ StopNoMemory };

    fn from(_wanted: NoMemory) -> ReadStop {
        ReadStop::NoMemory
    }
}
