//! The two phases of a command: all is settled, and then what the command asks is decided and done.

ghost use Rattle.std.specs.Prelude.{◌≡◌, ◌++◌, List as Items, IfOk, OnErr};
ghost use Rattle.fc_stands.specs.Armed.{ArmsAs};
ghost use Rattle.fc_stands.specs.Quiet.{AnswersUnarmed};
ghost use Rattle.fc_base.specs.declared.request.Effect.{Effect};
ghost use Rattle.fc_lane.specs.Lane.{IsSameLane, KeepsQuiet};
ghost use Rattle.fc_lanes.specs.AllLanes.{EachLane, KeepsArmed};
ghost use Rattle.fc_apart.specs.Effects.{IsJoined};
ghost use Rattle.fc_stands.specs.Phase.{IsDecided};
ghost use Rattle.fc_stands.specs.Settling.{CanDecide, CanSettle, Decides, Settles};

use crate::store::Store;
use fc_apart::effects::{join, taken};
use fc_base::command::Command;
use fc_base::decision::Decision;
use fc_base::list::List;
use fc_base::outcome::NoMemory;
use fc_base::request::{Effect, Reply};
use fc_mdisk::mdisk::Mdisk;

impl<D: Mdisk> Store<D> {
    /// Settles all, and tells the effects. Where no memory is had all is as it was.
    pub fn settle_all(&mut self) -> Result<List<Effect>, NoMemory>
        requires stands { CanSettle self.old }
        ensures settles { Settles result self.old self.new }
        ensures grain { self.new.control.grain ≡ self.old.control.grain }
        ensures lanes { EachLane IsSameLane self.old.lanes self.new.lanes }
        ensures quiet { EachLane KeepsQuiet self.old.lanes self.new.lanes }
        ensures armed { EachLane KeepsArmed self.old.lanes self.new.lanes }
    {
        let decision = match self.plan_settling() {
            Ok(decision) => decision,
            Err(NoMemory) => return Err(NoMemory),
        };
        match self.reserve_all(&decision) {
            Ok(()) => {}
            Err(NoMemory) => return Err(NoMemory),
        }
        self.apply_all(&decision);
        Ok(effects_of(decision))
    }

    /// Decides what a command does, and does it: the reply, and the effects with those of the settling before them. Where no
    /// memory is had all is as it was.
    pub(crate) fn decide_all(
        &mut self,
        command: &Command,
        settled: &List<Effect>,
    ) -> Result<(Reply, List<Effect>), NoMemory>
        requires stands { CanDecide self.old }
        requires decided { IsDecided command.now }
        ensures decides { Decides result self.old self.new command.now settled.now }
        ensures grain { self.new.control.grain ≡ self.old.control.grain }
        ensures lanes { EachLane IsSameLane self.old.lanes self.new.lanes }
        ensures quiet { AnswersUnarmed result command.now → EachLane KeepsQuiet self.old.lanes self.new.lanes }
        ensures armed { IfOk result (λ answer. EachLane (ArmsAs self.new.control.tables command.now answer.0) self.old.lanes self.new.lanes) }
        ensures starved { OnErr result (EachLane KeepsArmed self.old.lanes self.new.lanes) }
    {
        let decision = match self.plan_command(command) {
            Ok(decision) => decision,
            Err(NoMemory) => return Err(NoMemory),
        };
        let joined = match join(self.alloc, settled, &decision.effects) {
            Ok(joined) => joined,
            Err(NoMemory) => return Err(NoMemory),
        };
        match self.reserve_all(&decision) {
            Ok(()) => {}
            Err(NoMemory) => return Err(NoMemory),
        }
        self.apply_all(&decision);
        Ok(told(decision, joined))
    }
}

/// The effects of what was decided. Takes no memory.
fn effects_of(decision: Decision) -> List<Effect>
    ensures { result ≡ decision.effects }
{
    decision.effects
}

/// The reply of what was decided, and its effects behind those of the settling. Takes no memory.
fn told(decision: Decision, joined: List<Effect>) -> (Reply, List<Effect>)
    ensures reply { result.0 ≡ decision.reply }
    ensures effects { (settled : Items Effect) → IsJoined settled decision.effects joined → result.1 ≡ settled ++ decision.effects }
{
    (decision.reply, taken(joined, decision.effects))
}
