//! Why metadata wasn't written or recovered.

ghost use Rattle.std.specs.Prelude.{◌≡◌};
ghost use Rattle.fc_meta.specs.declared.error.MetaError.TheVariants.{Failed as MetaFailed, NoMemory as MetaNoMemory};
ghost use Rattle.fc_meta.specs.declared.error.RecoverError.TheVariants.{Failed as RecoverFailed};

use fc_base::outcome::{Failed, NoMemory};
use thiserror::Error;

/// Why metadata wasn't written.
#[derive(Clone, Copy, Debug, Error)]
pub enum MetaError {
    /// The disk failed in this call.
    #[error("the metadata disk failed")]
    Failed,
    /// Memory was wanted. Nothing was written.
    #[error("no memory")]
    NoMemory,
    /// The bytes pass the half, or the generation is at its end. Nothing was written.
    #[error("the metadata disk is full")]
    Full,
}

/// Why metadata wasn't recovered.
#[derive(Clone, Copy, Debug, Error)]
pub enum RecoverError {
    /// The disk failed in this call.
    #[error("the metadata disk failed")]
    Failed,
    /// Memory was wanted.
    #[error("no memory")]
    NoMemory,
    /// No half of the disk has an open gate.
    #[error("no image")]
    NoImage,
    /// The field at this place of the disk doesn't continue the format.
    #[error("damaged at {0}")]
    Damaged(u32),
}

impl From<Failed> for MetaError {
    ghost from_gives = { λ _ e. e ≡ MetaFailed };

    fn from(_failed: Failed) -> MetaError {
        MetaError::Failed
    }
}

impl From<NoMemory> for MetaError {
    ghost from_gives = { λ _ e. e ≡ MetaNoMemory };

    fn from(_wanted: NoMemory) -> MetaError {
        MetaError::NoMemory
    }
}

impl From<Failed> for RecoverError {
    ghost from_gives = { λ _ e. e ≡ RecoverFailed };

    fn from(_failed: Failed) -> RecoverError {
        RecoverError::Failed
    }
}
