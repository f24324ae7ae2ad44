//! Why a step isn't made.

ghost use Rattle.std.specs.Prelude.{◌≡◌};
ghost use Rattle.fc_marks.specs.Stops.{stop_of_meta, stop_of_log};
ghost use Rattle.fc_marks.specs.declared.error.NotedStop.TheVariants.{NoMemory as WantsMemory};

use fc_base::outcome::NoMemory;
use fc_entry::stop::Stop;
use fc_meta::MetaError;

/// Why a step isn't made. Behind any of these only the disks are of use (`Noted::into_disks`): what they stand for is recovered.
#[derive(Clone, Copy, Debug, PartialEq, Eq)]
pub enum NotedStop {
    /// One more entry would pass 262,144.
    LogFull,
    /// Memory was wanted.
    NoMemory,
    /// The disk of metadata failed.
    MetaFailed,
    /// The disk of metadata has no room for the image, or for it and a record.
    MetaFull,
}

impl From<NoMemory> for NotedStop {
    ghost from_gives = { λ _ e. e ≡ WantsMemory };

    fn from(_wanted: NoMemory) -> NotedStop {
        NotedStop::NoMemory
    }
}

impl From<Stop> for NotedStop {
    ghost from_gives = { λ stop e. e ≡ stop_of_log stop };

    fn from(stop: Stop) -> NotedStop {
        match stop {
            Stop::LogFull => NotedStop::LogFull,
            Stop::NoMemory => NotedStop::NoMemory,
        }
    }
}

impl From<MetaError> for NotedStop {
    ghost from_gives = { λ error e. e ≡ stop_of_meta error };

    fn from(error: MetaError) -> NotedStop {
        match error {
            MetaError::Failed => NotedStop::MetaFailed,
            MetaError::NoMemory => NotedStop::NoMemory,
            MetaError::Full => NotedStop::MetaFull,
        }
    }
}
