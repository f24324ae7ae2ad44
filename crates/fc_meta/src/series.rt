//! Calls one after the other.

ghost use Rattle.std.specs.Prelude.{◌≡◌, ◌<◌, ◌+◌, List, ℕ, length, take, drop, OnOk, OnErr, IsErrOf};
ghost use Rattle.std.specs.List.{sum_by};
ghost use Rattle.fc_base.specs.Count.{HasRisen};
ghost use Rattle.fc_metadisk.specs.Disk.{LeavesOnly};
ghost use Rattle.fc_meta.specs.Answers.{LeavesEither, LeavesFound, more_calls, IsStopped};
ghost use Rattle.fc_meta.specs.States.{disk_of, found, IsResting};
ghost use Rattle.fc_meta.specs.Order.{AtRest, IsReadyFor, HasNoRoom, TakesMemory, OfFirst, disk_calls, AreInOrder, IsAt, stage_behind, stands, LeavesFront, UnlessFailed};
ghost use Rattle.fc_meta.specs.Promise.{Promise};

use crate::error::MetaError;
use crate::meta::Meta;
use fc_base::list::List;
use fc_image::{MetaImage, MetaRecord};
use fc_metadisk::MetaDisk;
use std::alloc::Global;

/// A call of the writer, and what it takes.
#[derive(Drop)]
pub enum Call {
    /// `Meta::note`, of a batch of these records.
    Note(List<MetaRecord>),
    /// `Meta::sync`.
    Sync,
    /// `Meta::clear_other`.
    ClearOther,
    /// `Meta::fill_other`, with this image.
    FillOther(MetaImage),
    /// `Meta::turn`.
    Turn,
}

impl<M: MetaDisk> Meta<M> {
    /// Makes the call, and answers as it does.
    pub fn make(&mut self, alloc: Global, call: &Call) -> Result<(), MetaError>
        requires { IsReadyFor M.seen M.may_leave call.now self.old }
        ensures { Promise M.seen M.moment M.left_since M.fault_count M.calls M.leads M.may_leave
            call.now self.old self.new result }
    {
        match call {
            Call::Note(records) => self.note(alloc, records.as_slice()),
            Call::Sync => self.sync(),
            Call::ClearOther => self.clear_other(),
            Call::FillOther(image) => self.fill_other(alloc, image),
            Call::Turn => self.turn(),
        }
    }

    /// Makes the calls, which come in their order, up to the first that isn't answered Ok. Answers how many were answered Ok, and
    /// how the last one was.
    ///
    /// A crash at any moment leaves the image of the last whole fold with each batch behind it whose sync had answered, in
    /// order; where a call failed, maybe with what that call would have made stand, whole.
    pub fn make_all(&mut self, alloc: Global, calls: &[Call]) -> (usize, Result<(), MetaError>)
        requires rests { IsResting M.seen M.may_leave self.old }
        requires order { AreInOrder AtRest calls.now }
        ensures all { OnOk result.1 (result.0 ≡ length calls.now) }
        ensures part { OnErr result.1 (result.0 < length calls.now) }
        ensures full { IsErrOf result.1 MetaError.Full →
            OfFirst (λ call. HasNoRoom M.seen call self.new) (drop result.0 calls.now) }
        ensures no_memory { IsErrOf result.1 MetaError.NoMemory →
            OfFirst TakesMemory (drop result.0 calls.now) }
        ensures at { UnlessFailed result.1
            (IsAt M.seen M.may_leave (stage_behind AtRest (take result.0 calls.now)) self.new) }
        ensures found { UnlessFailed result.1
            (found M.seen self.new ≡ stands (found M.seen self.old) (take result.0 calls.now)) }
        ensures size { length (M.seen (disk_of self.new)) ≡ length (M.seen (disk_of self.old)) }
        ensures durable { UnlessFailed result.1
            ((c : List ℕ) → M.may_leave (disk_of self.new) c →
            LeavesFound (stands (found M.seen self.old) (take result.0 calls.now)) c) }
        ensures crash { (c : List ℕ) → M.may_leave (disk_of self.new) c →
            LeavesEither (stands (found M.seen self.old) (take result.0 calls.now))
            (stands (found M.seen self.old) (take (result.0 + 1) calls.now)) c }
        ensures any_moment { LeavesOnly M.moment M.left_since (disk_of self.old) (disk_of self.new)
            (LeavesFront (found M.seen self.old) (take (result.0 + 1) calls.now)) }
        ensures failed { IsErrOf result.1 MetaError.Failed → HasRisen
            (M.fault_count (disk_of self.old)) (M.fault_count (disk_of self.new)) }
        ensures quiet { UnlessFailed result.1
            (M.fault_count (disk_of self.new) ≡ M.fault_count (disk_of self.old)) }
        ensures calls { UnlessFailed result.1 (M.calls (disk_of self.new) ≡ more_calls
            (sum_by disk_calls (take result.0 calls.now)) (M.calls (disk_of self.old))) }
        ensures stopped { IsErrOf result.1 MetaError.Failed → OfFirst
            (λ call. IsStopped (disk_calls call)
            (more_calls (sum_by disk_calls (take result.0 calls.now)) (M.calls (disk_of self.old)))
            (M.calls (disk_of self.new))) (drop result.0 calls.now) }
    {
        for (done, call) in calls.iter().enumerate() {
            match self.make(alloc, call) {
                Ok(()) => {}
                Err(error) => return (done, Err(error)),
            }
        }
        (calls.len(), Ok(()))
    }
}
