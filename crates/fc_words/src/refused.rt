//! Why a line isn't read.

ghost use Rattle.std.specs.Prelude.{◌≡◌};
ghost use Rattle.fc_words.specs.declared.refused.WordRefused.TheVariants.{Fault, NoMemory};

use fc_base::fault::WordFault;
use fc_base::outcome::NoMemory;

/// Why a line isn't read.
#[derive(Clone, Copy)]
pub enum WordRefused {
    /// Its first fault.
    Fault(WordFault),
    /// Memory was wanted and not had.
    NoMemory,
}

impl From<WordFault> for WordRefused {
    ghost from_gives = { λ fault refused. refused ≡ Fault fault };

    fn from(fault: WordFault) -> WordRefused {
        WordRefused::Fault(fault)
    }
}

impl From<NoMemory> for WordRefused {
    ghost from_gives = { λ _ refused. refused ≡ NoMemory };

    fn from(_: NoMemory) -> WordRefused {
        WordRefused::NoMemory
    }
}
