//! Reads and writes, refused accesses and presets, and unread lines: what they ask, entry by entry.

ghost use Rattle.std.specs.Prelude.{◌≡◌, ◌+◌, ◌*◌, ◌<◌, ◌≤◌, ◌∷◌, [], ℕ, List as Items, length, map, Contains, Some, None, Err, IfOk, IfErr};
ghost use Rattle.fc_stands.specs.Quiet.{QuietBy};
ghost use Rattle.fc_base.specs.Grain.{grain_blocks};
ghost use Rattle.fc_base.specs.Tables.{volume_named};
ghost use Rattle.fc_base.specs.declared.behind.Behind.TheVariants.{Passing as PassingSeconds};
ghost use Rattle.fc_base.specs.declared.volume.Volume.{Volume};
ghost use Rattle.fc_books.specs.Books.{Books};
ghost use Rattle.fc_books.specs.Refused.{access_refused};
ghost use Rattle.fc_entry.specs.Refused.{blocks_refusal};
ghost use Rattle.fc_legal.specs.Added.{Answered, IsTold, StaysUp, TellsSome};
ghost use Rattle.fc_blocks.specs.Segments.{single};
ghost use Rattle.fc_legal.specs.Agenda.{Session, Own, Reading, session_rules};
ghost use Rattle.fc_legal.specs.Asked.{command_asked, touched};
ghost use Rattle.fc_legal.specs.Whole.{Whole};
ghost use Rattle.fc_stands.specs.Logged.{Logged, anything};
ghost use Rattle.fc_stands.specs.Apart.{IsRefusalOf};
ghost use Rattle.fc_lanes.specs.Asking.{command_of, part_of};
ghost use Rattle.fc_lanes.specs.Dealing.{disks_in};
ghost use Rattle.fc_stands.specs.Store.{StandsFor};
ghost use Rattle.fc_store.specs.Answering.{AnswersCommand};
ghost use Rattle.fc_store.specs.Ready.{disks_of};

use crate::store::Store;
use fc_apart::apart::refused_entry;
use fc_apart::log::{is_full, log};
use fc_base::command::{Command, Preset};
use fc_base::fault::{Kind, Refusal, ValueOf, WordFault};
use fc_base::ids::VolId;
use fc_base::limits::{MAX_BLOCKS, MAX_ENTRIES};
use fc_base::name::{Name, Ref};
use fc_base::request::Request;
use fc_base::size::GrainSize;
use fc_base::volume::Volume;
use fc_entry::history::History;
use fc_entry::stop::Stop;
use fc_lanes::access::{Access, access_lane};
use fc_lanes::touched::{blocks_in, touched_grains};
use fc_mdisk::mdisk::Mdisk;

/// Why an access of so many blocks of a volume is refused, if it is: Limit for more than 8,192; BadValue for none, and for
/// a block past the volume's end.
fn blocks_refusal(grain: GrainSize, volume: &Volume, block: u32, count: u32) -> Option<Refusal>
    ensures { result ≡ blocks_refusal grain volume.now block count }
{
    if count > MAX_BLOCKS {
        return Some(Refusal::Limit(MAX_BLOCKS));
    }
    let end = volume.grains as u64 * grain.blocks() as u64;
    if count == 0 || end < block as u64 + count as u64 {
        return Some(Refusal::BadValue(ValueOf::Blocks));
    }
    None
}

impl<D: Mdisk> Store<D> {
    /// Does an access in one of its grains, and logs it.
    pub fn run_part(
        &mut self,
        access: Access,
        volume: VolId,
        block: u32,
        count: u32,
        grain: u32,
        history: &mut History,
    ) -> Result<(), Stop>
        requires stands { TellsSome (StandsFor self.old) history.old }
        requires room { length history.old.entries ≤ MAX_ENTRIES }
        requires there { (v : Volume) × Contains self.old.control.tables.volumes v × (v.id ≡ volume) × (grain < v.grains) }
        requires some { 0 < count }
        requires begins { block < (grain + 1) * grain_blocks self.old.control.grain }
        requires ends { grain * grain_blocks self.old.control.grain < block + count }
        ensures answered { (w : Whole) → IsTold (StandsFor self.old) history.old w →
            Logged result anything (StandsFor self.new) self.old.control.grain w (part_of self.old.control.grain access volume block count grain) history.old history.new }
        ensures control { self.new.control ≡ self.old.control }
        ensures disks { disks_in self.new.lanes ≡ disks_in self.old.lanes }
        ensures each { map disks_of self.new.lanes ≡ map disks_of self.old.lanes }
        ensures quiet { QuietBy history.old.entries self.old → StaysUp result (QuietBy history.new.entries self.new) }
        ensures limit { length history.new.entries ≤ MAX_ENTRIES }
    {
        let place = match self.ready_lane(grain, history) {
            Ok(place) => place,
            Err(stop) => return Err(stop),
        };
        let (first, blocks) = blocks_in(self.control.grain(), block, count, grain);
        let number = history.len() as u64;
        let lane = &mut self.lanes[place];
        let entry = access_lane(self.alloc, lane, number, 0, access, volume, first, blocks);
        log(history, entry)
    }

    /// Does an access in all grains that it touches, rising.
    fn run_parts(
        &mut self,
        access: Access,
        volume: VolId,
        block: u32,
        count: u32,
        history: &mut History,
    ) -> Result<(), Stop>
        requires stands { TellsSome (StandsFor self.old) history.old }
        requires room { length history.old.entries ≤ MAX_ENTRIES }
        requires some { 0 < count }
        requires few { count ≤ MAX_BLOCKS }
        requires there { (v : Volume) × Contains self.old.control.tables.volumes v × (v.id ≡ volume) × (block + count ≤ v.grains * grain_blocks self.old.control.grain) }
        ensures answered { (read : Reading) (w : Whole) → IsTold (StandsFor self.old) history.old w →
            Answered result (StandsFor self.new) (session_rules self.old.control.grain read)
            (Own (map (part_of self.old.control.grain access volume block count) (touched self.old.control.grain block count)) (PassingSeconds 0) []) w history.old history.new }
        ensures control { self.new.control ≡ self.old.control }
        ensures disks { disks_in self.new.lanes ≡ disks_in self.old.lanes }
        ensures quiet { QuietBy history.old.entries self.old → StaysUp result (QuietBy history.new.entries self.new) }
        ensures limit { length history.new.entries ≤ MAX_ENTRIES }
    {
        let (first, last) = touched_grains(self.control.grain(), block, count);
        for grain in first..last + 1 {
            match self.run_part(access, volume, block, count, grain, history) {
                Ok(()) => {}
                Err(stop) => return Err(stop),
            }
        }
        Ok(())
    }

    /// Logs a refused access, a refused preset or an unread line, which settles nothing and does nothing.
    pub fn log_refused(
        &self,
        history: &mut History,
        request: Request,
        refusal: Refusal,
    ) -> Result<(), Stop>
        requires stands { TellsSome (StandsFor self.now) history.old }
        requires room { length history.old.entries ≤ MAX_ENTRIES }
        requires refused { (w : Whole) → IsTold (StandsFor self.now) history.old w → IsRefusalOf self.now.control.grain w request refusal }
        ensures answered { (w : Whole) → IsTold (StandsFor self.now) history.old w →
            Logged result anything (StandsFor self.now) self.now.control.grain w request history.old history.new }
        ensures quiet { QuietBy history.old.entries self.now → StaysUp result (QuietBy history.new.entries self.now) }
        ensures limit { length history.new.entries ≤ MAX_ENTRIES }
    {
        if is_full(history) {
            return Err(Stop::LogFull);
        }
        let mut entry = refused_entry(self.alloc, 0, request, refusal);
        entry.number = history.len() as u64;
        log(history, entry)
    }

    /// The volume that an access is to; or why it is refused: NoSuch without such a volume, and then its blocks.
    pub fn taken(&self, volume: &Ref, block: u32, count: u32) -> Result<VolId, Refusal>
        ensures taken { IfOk result (λ id. (v : Volume) × (volume_named self.now.control.tables volume.now ≡ Some v) × (v.id ≡ id) × (blocks_refusal self.now.control.grain v block count ≡ None)) }
        ensures refused { IfErr result (λ refusal. (b : Books) → b.tables ≡ self.now.control.tables → access_refused self.now.control.grain b volume.now block count ≡ Some refusal) }
    {
        match self.control.registry().volume(volume) {
            None => Err(Refusal::NoSuch(Kind::Vdisk)),
            Some(found) => match blocks_refusal(self.control.grain(), found, block, count) {
                Some(refusal) => Err(refusal),
                None => Ok(found.id),
            },
        }
    }

    /// Does an access, or logs why it is refused.
    pub(crate) fn run_access(
        &mut self,
        access: Access,
        volume: Ref,
        block: u32,
        count: u32,
        history: &mut History,
    ) -> Result<(), Stop>
        requires stands { TellsSome (StandsFor self.old) history.old }
        requires room { length history.old.entries ≤ MAX_ENTRIES }
        ensures answered { (read : Reading) (w : Whole) → IsTold (StandsFor self.old) history.old w →
            Answered result (StandsFor self.new) (session_rules self.old.control.grain read)
            (Own (command_asked self.old.control.grain w.books (command_of access volume block count)) (PassingSeconds 0) []) w history.old history.new }
        ensures control { self.new.control ≡ self.old.control }
        ensures disks { disks_in self.new.lanes ≡ disks_in self.old.lanes }
        ensures quiet { QuietBy history.old.entries self.old → StaysUp result (QuietBy history.new.entries self.new) }
        ensures limit { length history.new.entries ≤ MAX_ENTRIES }
    {
        match self.taken(&volume, block, count) {
            Ok(volume) => self.run_parts(access, volume, block, count, history),
            Err(refusal) => {
                let request = Request::Command(access.command(volume, block, count));
                self.log_refused(history, request, refusal)
            }
        }
    }

    /// Logs a preset whose source names no volume, with the refusal.
    pub(crate) fn refuse_preset(
        &self,
        source: Ref,
        preset: Preset,
        name: Option<Name>,
        history: &mut History,
    ) -> Result<(), Stop>
        requires stands { TellsSome (StandsFor self.now) history.old }
        requires room { length history.old.entries ≤ MAX_ENTRIES }
        requires unnamed { volume_named self.now.control.tables source ≡ None }
        ensures answered { AnswersCommand result (Command.Mkpreset source preset name) self.now self.now history.old history.new }
        ensures quiet { QuietBy history.old.entries self.now → StaysUp result (QuietBy history.new.entries self.now) }
        ensures limit { length history.new.entries ≤ MAX_ENTRIES }
    {
        let request = Request::Command(Command::Mkpreset {
            source,
            preset,
            name,
        });
        self.log_refused(history, request, Refusal::NoSuch(Kind::Vdisk))
    }

    /// Logs a line with a fault in its words, by `main`: one entry. `LogFull` where the history is full, `NoMemory` where memory
    /// was wanted for it; the history is then as it was.
    pub fn log_unread(&self, fault: WordFault, history: &mut History) -> Result<(), Stop>
        requires stands { TellsSome (StandsFor self.now) history.old }
        requires room { length history.old.entries ≤ MAX_ENTRIES }
        ensures answered { (w : Whole) → IsTold (StandsFor self.now) history.old w →
            Logged result anything (StandsFor self.now) self.now.control.grain w (Request.Unread fault) history.old history.new }
        ensures quiet { QuietBy history.old.entries self.now → StaysUp result (QuietBy history.new.entries self.now) }
        ensures limit { length history.new.entries ≤ MAX_ENTRIES }
    {
        self.log_refused(history, Request::Unread(fault), Refusal::Words(fault))
    }

    /// Answers a line that is read as one with this fault in its words: one entry, or none where the history is full or memory
    /// is wanted for it.
    pub fn push_unread(&mut self, fault: WordFault, history: &mut History) -> Result<(), Stop>
        requires stands { TellsSome (StandsFor self.old) history.old }
        requires room { length history.old.entries ≤ MAX_ENTRIES }
        ensures answered { (read : Reading) (bytes : Items ℕ) (w : Whole) → read w.books bytes ≡ Err fault → IsTold (StandsFor self.old) history.old w →
            Answered result (StandsFor self.new) (session_rules self.old.control.grain read) (Session (single bytes ∷ [])) w history.old history.new }
        ensures control { self.new.control ≡ self.old.control }
        ensures disks { disks_in self.new.lanes ≡ disks_in self.old.lanes }
        ensures quiet { QuietBy history.old.entries self.old → StaysUp result (QuietBy history.new.entries self.new) }
        ensures limit { length history.new.entries ≤ MAX_ENTRIES }
    {
        self.log_unread(fault, history)
    }
}
