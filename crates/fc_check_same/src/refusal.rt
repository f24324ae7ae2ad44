//! The comparison of refusals.

use crate::same::Same;
use fc_base::fault::Refusal;

impl Same for Refusal {
    fn is_same(&self, other: &Refusal) -> bool {
        match (self, other) {
            (Refusal::Words(own), Refusal::Words(fault)) => own == fault,
            (Refusal::NoSuch(own), Refusal::NoSuch(kind)) => own == kind,
            (Refusal::NameTaken(own), Refusal::NameTaken(id)) => own == id,
            (Refusal::Limit(own), Refusal::Limit(most)) => own == most,
            (Refusal::NoDisk, Refusal::NoDisk) => true,
            (Refusal::BadValue(own), Refusal::BadValue(of)) => own == of,
            (Refusal::InUse(own), Refusal::InUse(volume)) => own == volume,
            (Refusal::NotPrepared, Refusal::NotPrepared) => true,
            (Refusal::NotAllowed(own), Refusal::NotAllowed(state)) => own == state,
            (Refusal::InGroup(own), Refusal::InGroup(group)) => own == group,
            (Refusal::Empty, Refusal::Empty) => true,
            (Refusal::TargetTwice(own), Refusal::TargetTwice(volume)) => own == volume,
            (Refusal::SourceIsTarget(own), Refusal::SourceIsTarget(volume)) => own == volume,
            (Refusal::SourceNotReady(own), Refusal::SourceNotReady(volume)) => own == volume,
            (Refusal::TargetActive(own), Refusal::TargetActive(map)) => own == map,
            (Refusal::TargetIsSource(own), Refusal::TargetIsSource(volume)) => own == volume,
            (Refusal::RestoreLoop(own), Refusal::RestoreLoop(volumes)) => own.is_same(volumes),
            (
                Refusal::NotComplete { held, total },
                Refusal::NotComplete {
                    held: others,
                    total: all,
                },
            ) => held == others && total == all,
            (Refusal::NeedsForce, Refusal::NeedsForce) => true,
            (
                Refusal::SizeDiffers { source, target },
                Refusal::SizeDiffers {
                    source: from,
                    target: into,
                },
            ) => source == from && target == into,
            (
                Refusal::GrainDiffers { asked, run },
                Refusal::GrainDiffers {
                    asked: wanted,
                    run: held,
                },
            ) => asked == wanted && run == held,
            (Refusal::SameVolume, Refusal::SameVolume) => true,
            (Refusal::PairTaken(own), Refusal::PairTaken(map)) => own == map,
            _ => false,
        }
    }
}
