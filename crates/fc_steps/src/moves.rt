//! The moves of an entry, one after the other.

ghost use Rattle.std.specs.Prelude.{◌≡◌, ◌+◌, ◌*◌, ◌<◌, ◌≤◌, ◌^◌, [], ℕ, None, List, length, map};
ghost use Rattle.fc_steps.specs.StepsEnd.{CanMakeMoves, StepsEnd, StepsStand, torn_in};
ghost use Rattle.fc_rules.specs.LaneTold.{LaneOf, LaneTold, place_of};
ghost use Rattle.fc_rules.specs.LaneTurn.{spot_at};
ghost use Rattle.fc_rules.specs.Spot.{move_in};
ghost use Rattle.fc_rules.specs.Steps.{step_of_move};

use crate::body::{Body, StepEnd};
use fc_base::move_plan::MovePlan;
use fc_base::request::Move;
use fc_mdisk::mdisk::Mdisk;

impl<D: Mdisk> Body<D> {
    /// Makes planned moves of a grain, which stands at this place among the lane's, in order, and puts each that was made
    /// into `made`. It stops at the first that isn't done.
    pub fn make_moves(&mut self, plan: &[Move], place: u32, made: &mut MovePlan) -> StepEnd
        requires can { (l : LaneOf) × (told : LaneTold) × (number : ℕ) × (ks : List ℕ) × CanMakeMoves l told number ks self.old.cascade self.old.grains × (plan.now ≡ map (move_in (spot_at l told number)) ks) × (place ≡ place_of l number) }
        requires few { length plan.now < 2 ^ 30 }
        requires room { length plan.now ≤ made.old.room }
        requires empty { made.old.moves ≡ [] }
        ensures ends { (l : LaneOf) (told : LaneTold) (number : ℕ) (ks : List ℕ) → CanMakeMoves l told number ks self.old.cascade self.old.grains → plan.now ≡ map (move_in (spot_at l told number)) ks → place ≡ place_of l number → StepsEnd (spot_at l told number) (map (step_of_move (spot_at l told number)) ks) made.new.moves result.calls result.stop self.old.grains self.new.grains × StepsStand l told None made.new.moves result.calls (torn_in result.stop) self.old.cascade self.old.grains self.new.cascade self.new.grains }
        ensures few { result.calls ≤ 2 * length plan.now }
    {
        let mut calls = 0;
        for mv in plan {
            let end = self.make_move(mv, place);
            calls += end.calls;
            if end.stop.is_some() {
                return StepEnd {
                    calls,
                    stop: end.stop,
                };
            }
            made.push(*mv);
        }
        StepEnd { calls, stop: None }
    }
}
