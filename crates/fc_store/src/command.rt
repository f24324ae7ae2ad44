//! The entries of commands: settled and decided, or left as it was or settled alone for want of memory.

ghost use Rattle.std.specs.Prelude.{◌≡◌, ℕ, ◌+◌, ◌<◌, ◌≤◌, length, Err, List as Items, false};
ghost use Rattle.fc_base.specs.declared.request.Effect.{Effect};
ghost use Rattle.fc_books.specs.Deciding.{settle};
ghost use Rattle.fc_lane.specs.Lane.{IsAsked, IsSameLane, KeepsQuiet};
ghost use Rattle.fc_lanes.specs.AllLanes.{EachLane};
ghost use Rattle.fc_lanes.specs.Dealing.{disks_in};
ghost use Rattle.fc_legal.specs.Added.{IsTold, StaysUp, TellsSome};
ghost use Rattle.fc_legal.specs.Whole.{Whole};
ghost use Rattle.fc_stands.specs.Apart.{entry_apart};
ghost use Rattle.fc_stands.specs.Armed.{ArmsAs};
ghost use Rattle.fc_stands.specs.Arming.{arms};
ghost use Rattle.fc_stands.specs.Leading.{LeadsOn};
ghost use Rattle.fc_stands.specs.Logged.{Logged, whether_done};
ghost use Rattle.fc_stands.specs.Phase.{IsDecided};
ghost use Rattle.fc_stands.specs.Quiet.{QuietBy};
ghost use Rattle.fc_stands.specs.Settling.{CanDecide, IsSettled};
ghost use Rattle.fc_stands.specs.Store.{StandsFor};

use crate::store::Store;
use fc_apart::apart::entry_apart;
use fc_apart::log::{is_done, is_full, log_telling};
use fc_base::command::Command;
use fc_base::limits::MAX_ENTRIES;
use fc_base::list::List;
use fc_base::outcome::NoMemory;
use fc_base::request::{Effect, Place, Reply, Request};
use fc_entry::entry::Entry;
use fc_entry::history::History;
use fc_entry::stop::Stop;
use fc_mdisk::mdisk::Mdisk;
use std::alloc::Global;

impl<D: Mdisk> Store<D> {
    /// Runs a command, which is no access and no preset, by `main`: all is settled, and then it is decided and done. Want of
    /// memory is its answer. Says whether it is done.
    pub fn run_command(&mut self, command: Command, history: &mut History) -> Result<bool, Stop>
        requires stands { TellsSome (StandsFor self.old) history.old }
        requires room { length history.old.entries ≤ MAX_ENTRIES }
        requires decided { IsDecided command }
        ensures answered { (w : Whole) → IsTold (StandsFor self.old) history.old w →
            Logged result whether_done (StandsFor self.new) self.old.control.grain w (Request.Command command) history.old history.new }
        ensures grain { self.new.control.grain ≡ self.old.control.grain }
        ensures disks { disks_in self.new.lanes ≡ disks_in self.old.lanes }
        ensures quiet { QuietBy history.old.entries self.old → StaysUp result (QuietBy history.new.entries self.new) }
        ensures limit { length history.new.entries ≤ MAX_ENTRIES }
    {
        if is_full(history) {
            return full(command);
        }
        let mut entry = self.command_entry(0, command);
        entry.number = history.len() as u64;
        let done = is_done(&entry);
        log_telling(history, entry, done)
    }

    /// Does a command, which is no access and no preset, by an actor: all is settled, and then it is decided and done. Want of
    /// memory is its reply: then nothing is done, or all is settled alone. The entry leads on to what the store then stands for;
    /// its number is 0 until it is kept. Each lane stays the lane that it is, and as quiet as it was unless the entry arms a fault:
    /// an `armfault` that is done arms the disk of the volume that it names, in its grain's lane, with its number, and nothing else
    /// arms one.
    pub fn command_entry(&mut self, actor: u32, command: Command) -> Entry
        requires can { (w : Whole) × StandsFor self.old w × (w.entries < MAX_ENTRIES) }
        requires decided { IsDecided command }
        ensures right { (w : Whole) → StandsFor self.old w → w.entries < MAX_ENTRIES → LeadsOn self.old.control.grain w result self.new }
        ensures asked { IsAsked 0 actor (Request.Command command) result }
        ensures grain { self.new.control.grain ≡ self.old.control.grain }
        ensures lanes { EachLane IsSameLane self.old.lanes self.new.lanes }
        ensures quiet { arms (Request.Command command) result.reply ≡ false → EachLane KeepsQuiet self.old.lanes self.new.lanes }
        ensures armed { EachLane (ArmsAs self.new.control.tables command result.reply) self.old.lanes self.new.lanes }
    {
        let effects = match self.settle_all() {
            Ok(effects) => effects,
            Err(NoMemory) => {
                let none = List::new(self.alloc);
                return starved_entry(self.alloc, actor, command, none);
            }
        };
        self.settled_entry(actor, command, effects)
    }

    /// Decides a command after the settling, which had these effects, and does it: its entry. Where no memory is had it is settled
    /// alone.
    fn settled_entry(&mut self, actor: u32, command: Command, effects: List<Effect>) -> Entry
        requires stands { CanDecide self.old }
        requires decided { IsDecided command }
        ensures right { (decisions : ℕ) (w : Whole) → IsSettled decisions self.old w → effects ≡ (settle w.books).effects → LeadsOn self.old.control.grain w result self.new }
        ensures asked { IsAsked 0 actor (Request.Command command) result }
        ensures grain { self.new.control.grain ≡ self.old.control.grain }
        ensures lanes { EachLane IsSameLane self.old.lanes self.new.lanes }
        ensures quiet { arms (Request.Command command) result.reply ≡ false → EachLane KeepsQuiet self.old.lanes self.new.lanes }
        ensures armed { EachLane (ArmsAs self.new.control.tables command result.reply) self.old.lanes self.new.lanes }
    {
        let (reply, all) = match self.decide_all(&command, &effects) {
            Ok(decided) => decided,
            Err(NoMemory) => return starved_entry(self.alloc, actor, command, effects),
        };
        decided_entry(self.alloc, actor, command, reply, all)
    }
}

/// The entry of a command that was decided: its reply, and all effects.
fn decided_entry(
    alloc: Global,
    actor: u32,
    command: Command,
    reply: Reply,
    effects: List<Effect>,
) -> Entry
    ensures entry { result ≡ entry_apart 0 actor Place.Every (Request.Command command) reply effects }
    ensures asked { IsAsked 0 actor (Request.Command command) result }
{
    entry_apart(
        alloc,
        actor,
        Place::Every,
        Request::Command(command),
        reply,
        effects,
    )
}

/// The entry of a command for which no memory was had: the effects are those of the settling, if that was done.
fn starved_entry(alloc: Global, actor: u32, command: Command, effects: List<Effect>) -> Entry
    ensures entry { result ≡ entry_apart 0 actor Place.Every (Request.Command command) Reply.NoMemory effects }
    ensures asked { IsAsked 0 actor (Request.Command command) result }
{
    decided_entry(alloc, actor, command, Reply::NoMemory, effects)
}

/// A command that no entry has room for.
fn full(_command: Command) -> Result<bool, Stop>
    ensures { result ≡ Err Stop.LogFull }
{
    Err(Stop::LogFull)
}
