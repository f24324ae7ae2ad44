//! What is decided of what the store stands for: its settling, and what a command does.

ghost use Rattle.std.specs.Prelude.{◌≡◌, IfOk};
ghost use Rattle.fc_lane_sheet.specs.LaneSheet.{view_of};
ghost use Rattle.fc_stands.specs.Phase.{IsDecided};
ghost use Rattle.fc_stands.specs.Settling.{CanDecide, CanSettle, IsDecisionOn, IsSettling};

use crate::store::Store;
use fc_base::command::Command;
use fc_base::decision::Decision;
use fc_base::outcome::NoMemory;
use fc_base::sheet::Sheet;
use fc_control::decide;
use fc_mdisk::mdisk::Mdisk;

impl<D: Mdisk> Store<D> {
    /// The settling, by the chains of all lanes.
    fn settling_by<S: Sheet>(&self, sheet: &S) -> Result<Decision, NoMemory>
        requires sheet { S.meaning sheet.now ≡ view_of self.now.lanes }
        ensures { IfOk result (λ decision. IsSettling self.now decision) }
    {
        self.control.settle(self.alloc, sheet)
    }

    /// What is decided of a command, by the chains of all lanes.
    fn decision_by<S: Sheet>(&self, command: &Command, sheet: &S) -> Result<Decision, NoMemory>
        requires stands { CanDecide self.now }
        requires decided { IsDecided command.now }
        requires sheet { S.meaning sheet.now ≡ view_of self.now.lanes }
        ensures { IfOk result (λ decision. IsDecisionOn self.now command.now decision) }
    {
        decide(self.alloc, &self.control, command, sheet)
    }

    /// The settling.
    pub fn plan_settling(&self) -> Result<Decision, NoMemory>
        requires stands { CanSettle self.now }
        ensures { IfOk result (λ decision. IsSettling self.now decision) }
    {
        self.settling_by(&self.sheet())
    }

    /// What is decided of a command.
    pub fn plan_command(&self, command: &Command) -> Result<Decision, NoMemory>
        requires stands { CanDecide self.now }
        requires decided { IsDecided command.now }
        ensures { IfOk result (λ decision. IsDecisionOn self.now command.now decision) }
    {
        self.decision_by(command, &self.sheet())
    }
}
