//! Commands.

ghost use Rattle.std.specs.Prelude.{◌≡◌, ◌+◌, ◌<◌, ◌||◌, [], ℕ, List, Some, length, true, is_some, IfErr, IfOk, IsErrOf, OnErr, OnOk};
ghost use Rattle.fc_books.specs.Deciding.{settle};
ghost use Rattle.fc_entry.specs.HistoryState.{HistoryState};
ghost use Rattle.fc_entry.specs.declared.entry.Entry.{Entry as EntryValue};
ghost use Rattle.fc_format.specs.Halves.{Image};
ghost use Rattle.fc_format.specs.Ranges.{HasGoodIds};
ghost use Rattle.fc_image.specs.declared.image.MetaImage.{MetaImage as ImageValue};
ghost use Rattle.fc_kept.specs.Actions.{has_effect};
ghost use Rattle.fc_lane.specs.Lane.{IsAsked, IsSameLane};
ghost use Rattle.fc_lanes.specs.AllLanes.{EachLane};
ghost use Rattle.fc_legal.specs.Steps.{after_settling};
ghost use Rattle.fc_legal.specs.Whole.{Whole};
ghost use Rattle.fc_marks.specs.Meter.{IsCutShort, IsMetered, Meter, with_fold};
ghost use Rattle.fc_meta.specs.Answers.{LeavesEither, more_calls};
ghost use Rattle.fc_meta.specs.States.{IsResting, disk_of, found, room_of};
ghost use Rattle.fc_metadisk.specs.Disk.{LeavesOnly};
ghost use Rattle.fc_noted.specs.Making.{AnewOr, CountsInto, HasActed, IsEntryOf, IsImageAfter, IsNotedWithRoom, KeepLanes, KeepsCount, LeadsOn, LeavesAnew, MayHaveActed, StepMade, TriesAnew, WhereverNoted, always};
ghost use Rattle.fc_noted.specs.Noted.{CanBegin};
ghost use Rattle.law_noted.specs.Records.{removed_by};
ghost use Rattle.fc_noted.specs.Stopping.{HasStopped, LeavesRecoverable, OfMetadata};
ghost use Rattle.fc_script.specs.Asking.{CanBeAsked, IsNext};
ghost use Rattle.fc_script.specs.Script.{agenda_of};
ghost use Rattle.fc_stands.specs.Phase.{CanPrepare, IsDecided, StandsAt};
ghost use Rattle.fc_stands.specs.Settling.{AreFew, CanSettle};
ghost use Rattle.fc_stands.specs.Store.{StandsFor};

use crate::noted::Noted;
use fc_apart::apart::entry_apart;
use fc_apart::effects::{join, taken};
use fc_apart::log::is_full;
use fc_base::command::Command;
use fc_base::decision::{Decision, LaneEvent};
use fc_base::ids::VolId;
use fc_base::list::List;
use fc_base::request::{Effect, Place, Request};
use fc_entry::entry::Entry;
use fc_entry::history::History;
use fc_image::MetaImage;
use fc_imaging::{image_of, image_without};
use fc_marks::NotedStop;
use fc_mdisk::mdisk::Mdisk;
use fc_metadisk::MetaDisk;
use fc_script::asking::Asked;
use law_commanded::commanded_law;
use std::alloc::Global;

/// Whether a decision has effects, or changes the tables.
fn has_effect(decision: &Decision) -> bool
    ensures { result ≡ has_effect decision.now }
{
    decision.effects.len() != 0 || decision.changes.len() != 0
}

/// Whether the settling or what is decided after it does.
fn have_effect(settling: &Decision, decision: &Decision) -> bool
    ensures { result ≡ (has_effect settling.now || has_effect decision.now) }
{
    has_effect(settling) || has_effect(decision)
}

/// The volume that goes by a decision, if one does.
fn removed_by(decision: &Decision) -> Option<VolId>
    ensures { result ≡ removed_by decision.now.events }
{
    for event in decision.events.as_slice() {
        if let LaneEvent::Remove { volume } = event {
            return Some(*volume);
        }
    }
    None
}

impl<D: Mdisk, M: MetaDisk> Noted<D, M> {
    /// Does a command by `main`, and logs it. All is settled, and then it is decided and done; where either has effects or changes the
    /// tables, metadata is made anew by what that leaves.
    pub(crate) fn command(
        &mut self,
        command: Command,
        history: &mut History,
    ) -> Result<(), NotedStop>
        requires begins { CanBegin M.seen M.may_leave self.old history.old }
        requires next { (w : Whole) → StandsFor self.old.store w → IsNext self.old.store.control.grain w (Some (Asked.Command command)) (agenda_of self.old.store.control.grain self.old.script) }
        requires can { CanBeAsked self.old.store (Asked.Command command) }
        ensures made { StepMade M.seen M.may_leave M.moment M.left_since M.calls (always result) self.old self.new history.old history.new }
        ensures lanes { KeepLanes self.old.store self.new.store }
        ensures live { self.new.live ≡ self.old.live }
        ensures counted { KeepsCount M.seen M.fault_count M.calls result self.old self.new }
    {
        if is_full(history) {
            return Err(NotedStop::LogFull);
        }
        let mut entry = self.command_entry(command)?;
        entry.number = history.len() as u64;
        self.log_entry(entry, history)
    }

    /// Makes metadata anew by this image: no write is marked then, and all volumes have names.
    fn make_anew(&mut self, image: &MetaImage) -> Result<(), NotedStop>
        requires rests { IsResting M.seen M.may_leave self.old.meta }
        requires ids { HasGoodIds image.now }
        ensures rests { OnOk result (IsResting M.seen M.may_leave self.new.meta) }
        ensures found { OnOk result (found M.seen self.new.meta ≡ Image image.now) }
        ensures any_moment { LeavesOnly M.moment M.left_since (disk_of self.old.meta) (disk_of self.new.meta)
            (LeavesEither (found M.seen self.old.meta) (Image image.now)) }
        ensures named { OnOk result ((self.new.named ≡ image.now.next_volume) × (self.new.marks.items ≡ [])) }
        ensures kept { OnErr result ((self.new.named ≡ self.old.named) × (self.new.marks.items ≡ self.old.marks.items)) }
        ensures not_log { IsErrOf result NotedStop.LogFull → ⊥ }
        ensures calls { self.new.calls ≡ more_calls 6 self.old.calls }
        ensures metered { OnOk result ((m : Meter) → IsMetered M.seen self.old.meta m → IsMetered M.seen self.new.meta (with_fold (room_of M.seen self.old.meta) image.now m)) }
        ensures short { IfErr result (λ stop. IsCutShort M.seen M.calls stop self.old.meta self.new.meta (with_fold (room_of M.seen self.old.meta) image.now)) }
        ensures others { self.new ≡ record self.old { meta = self.new.meta; named = self.new.named; marks = self.new.marks; calls = self.new.calls } }
        ensures counted { KeepsCount M.seen M.fault_count M.calls result self.old self.new }
    {
        self.calls = self.calls.saturating_add(6);
        self.meta.fold(self.alloc, image)?;
        self.named = image.next_volume;
        self.marks.clear();
        Ok(())
    }

    /// Settles all, in memory.
    fn settle(&mut self) -> Result<Decision, NotedStop>
        requires can { CanSettle self.old.store }
        ensures settled { IfOk result (λ d. (decisions : ℕ) (w : Whole) → AreFew decisions w → StandsAt decisions self.old.store w →
            (d ≡ settle w.books) × StandsAt (decisions + 1) self.new.store (after_settling self.old.store.control.grain w)) }
        ensures starved { OnErr result ((decisions : ℕ) (w : Whole) → StandsAt decisions self.old.store w → StandsAt decisions self.new.store w) }
        ensures grain { self.new.store.control.grain ≡ self.old.store.control.grain }
        ensures lanes { EachLane IsSameLane self.old.store.lanes self.new.store.lanes }
        ensures not_log { IsErrOf result NotedStop.LogFull → ⊥ }
        ensures not_disk { IfErr result (λ stop. OfMetadata stop ⊥) }
        ensures others { self.new ≡ record self.old { store = self.new.store } }
    {
        let settling = self.store.plan_settling()?;
        self.store.reserve_all(&settling)?;
        self.store.apply_all(&settling);
        Ok(settling)
    }

    /// Does what is decided. Where there is an action for metadata, it is made anew: with what the store then has; but where a volume
    /// goes, without it before its disk is cleared.
    fn act(&mut self, decision: &Decision, has_action: bool) -> Result<(), NotedStop>
        requires can { CanPrepare self.old.store decision.now }
        requires rests { IsResting M.seen M.may_leave self.old.meta }
        requires good { (image : ImageValue) → IsImageAfter self.old.store decision.now image → HasGoodIds image }
        ensures done { OnOk result (HasActed decision.now self.old.store self.new.store) }
        ensures undone { OnErr result (MayHaveActed decision.now self.old.store self.new.store) }
        ensures kept { OnErr result ((self.new.named ≡ self.old.named) × (self.new.marks.items ≡ self.old.marks.items)) }
        ensures anew { OnOk result (AnewOr M.seen M.may_leave (has_action || is_some (removed_by decision.now.events)) decision.now self.old self.new) }
        ensures any_moment { LeavesOnly M.moment M.left_since (disk_of self.old.meta) (disk_of self.new.meta) (LeavesAnew M.seen M.may_leave decision.now self.old) }
        ensures tried { IfErr result (λ stop. OfMetadata stop (((has_action || is_some (removed_by decision.now.events)) ≡ true)
            × TriesAnew M.seen M.may_leave M.calls decision.now stop self.old self.new)) }
        ensures not_log { IsErrOf result NotedStop.LogFull → ⊥ }
        ensures others { self.new ≡ record self.old { store = self.new.store; meta = self.new.meta; named = self.new.named; marks = self.new.marks; calls = self.new.calls } }
        ensures counted { KeepsCount M.seen M.fault_count M.calls result self.old self.new }
    {
        self.store.reserve_all(decision)?;
        if let Some(volume) = removed_by(decision) {
            let image = image_without(
                self.alloc,
                self.store.control(),
                self.store.all_lanes(),
                volume,
            )?;
            self.make_anew(&image)?;
            self.store.apply_all(decision);
            return Ok(());
        }
        self.store.apply_all(decision);
        if has_action {
            let image = image_of(self.alloc, self.store.control(), self.store.all_lanes())?;
            self.make_anew(&image)?;
        }
        Ok(())
    }

    /// The entry of a command that is done: it leads on to what the noted store then stands for, once it is logged. Until then, and
    /// behind an error, a stop leaves what may be recovered with the command as one that is asked.
    fn command_entry(&mut self, command: Command) -> Result<Entry, NotedStop>
        requires at { IsNotedWithRoom M.seen M.may_leave self.old }
        requires next { (w : Whole) → StandsFor self.old.store w →
            IsNext self.old.store.control.grain w (Some (Asked.Command command)) (agenda_of self.old.store.control.grain self.old.script) }
        requires decided { IsDecided command }
        ensures leads { IfOk result (λ entry.
            (history : HistoryState) → length history.entries < 262144 → LeadsOn M.seen M.may_leave self.old history entry self.new) }
        ensures asked { IfOk result (λ entry. IsAsked 0 0 (Request.Command command) entry) }
        ensures any_moment { WhereverNoted M.seen M.may_leave self.old (λ history w least.
            LeavesOnly M.moment M.left_since (disk_of self.old.meta) (disk_of self.new.meta) (LeavesRecoverable self.old self.new w least)) }
        ensures stopped { WhereverNoted M.seen M.may_leave self.old (λ history w least. HasStopped M.may_leave self.old self.new w least) }
        ensures into { IfErr result (λ stop. OfMetadata stop (
            WhereverNoted M.seen M.may_leave self.old (λ history w least. CountsInto M.seen M.calls stop self.old self.new history w))) }
        ensures not_log { IsErrOf result NotedStop.LogFull → ⊥ }
        ensures grain { OnOk result (self.new.store.control.grain ≡ self.old.store.control.grain) }
        ensures lanes { EachLane IsSameLane self.old.store.lanes self.new.store.lanes }
        ensures script { self.new.script ≡ self.old.script }
        ensures live { self.new.live ≡ self.old.live }
        ensures counted { KeepsCount M.seen M.fault_count M.calls result self.old self.new }
    {
        match self.carry_out(&command) {
            Ok((decision, joined)) => Ok(decided_entry(self.alloc, command, decision, joined)),
            Err(stop) => Err(stop),
        }
    }

    /// Settles all, decides a command and does it: what was decided, and the effects of both decisions where the settling had any.
    fn carry_out(&mut self, command: &Command) -> Result<(Decision, List<Effect>), NotedStop>
        requires at { IsNotedWithRoom M.seen M.may_leave self.old }
        requires next { (w : Whole) → StandsFor self.old.store w →
            IsNext self.old.store.control.grain w (Some (Asked.Command command.now)) (agenda_of self.old.store.control.grain self.old.script) }
        requires decided { IsDecided command.now }
        ensures leads { IfOk result (λ done. (entry : EntryValue) → IsEntryOf command.now done.0 done.1 entry →
            (history : HistoryState) → length history.entries < 262144 → LeadsOn M.seen M.may_leave self.old history entry self.new) }
        ensures any_moment { WhereverNoted M.seen M.may_leave self.old (λ history w least.
            LeavesOnly M.moment M.left_since (disk_of self.old.meta) (disk_of self.new.meta) (LeavesRecoverable self.old self.new w least)) }
        ensures stopped { WhereverNoted M.seen M.may_leave self.old (λ history w least. HasStopped M.may_leave self.old self.new w least) }
        ensures into { IfErr result (λ stop. OfMetadata stop (
            WhereverNoted M.seen M.may_leave self.old (λ history w least. CountsInto M.seen M.calls stop self.old self.new history w))) }
        ensures not_log { IsErrOf result NotedStop.LogFull → ⊥ }
        ensures grain { OnOk result (self.new.store.control.grain ≡ self.old.store.control.grain) }
        ensures lanes { EachLane IsSameLane self.old.store.lanes self.new.store.lanes }
        ensures script { self.new.script ≡ self.old.script }
        ensures live { self.new.live ≡ self.old.live }
        ensures counted { KeepsCount M.seen M.fault_count M.calls result self.old self.new }
    {
        // (this does nothing: it is known by it what a command leaves on all disks)
        commanded_law();
        let settling = self.settle()?;
        let decision = self.store.plan_command(command)?;
        let joined = join(self.alloc, &settling.effects, &decision.effects)?;
        self.act(&decision, have_effect(&settling, &decision))?;
        Ok((decision, joined))
    }
}

/// The entry of a command that was decided, with the effects of the settling before its own.
fn decided_entry(alloc: Global, command: Command, decision: Decision, joined: List<Effect>) -> Entry
    ensures entry { IsEntryOf command decision joined result }
    ensures asked { IsAsked 0 0 (Request.Command command) result }
{
    let Decision { reply, effects, .. } = decision;
    entry_apart(
        alloc,
        0,
        Place::Every,
        Request::Command(command),
        reply,
        taken(joined, effects),
    )
}
