//! A store that begins, and its end, when the disks are given back.

ghost use Rattle.std.specs.Prelude.{◌≡◌, ◌<◌, ◌≤◌, ◌^◌, ◌+◌, ◌++◌, IfOk, List, map, vec_len, vec_capacity};
ghost use Rattle.std.specs.List.{All};
ghost use Rattle.fc_stands.specs.Quiet.{AreQuiet};
ghost use Rattle.fc_grains.specs.Grains.{pool_of, silent_of, total_of};
ghost use Rattle.fc_legal.specs.Whole.{opened};
ghost use Rattle.fc_mdisk.specs.Disk.{IsFresh};
ghost use Rattle.fc_lanes.specs.Dealing.{AreAllIn, AreByLane, disks_in, pools_dealt, silent_in};
ghost use Rattle.fc_stands.specs.Store.{StandsFor};

use crate::store::Store;
use fc_base::limits::LANES;
use fc_base::outcome::NoMemory;
use fc_base::size::GrainSize;
use fc_control::Control;
use fc_lanes::deal::{deal, give_lanes, make_lanes};
use fc_mdisk::mdisk::Mdisk;
use std::alloc::Global;
use std::collections::VecDeque;

impl<D: Mdisk> Store<D> {
    /// A store without volumes, over fresh disks, which are dealt to the lanes in turn. Refused, the disks are gone.
    pub fn new(alloc: Global, grain: GrainSize, disks: Vec<D>) -> Result<Store<D>, NoMemory>
        requires few { vec_len disks < 2 ^ 30 }
        requires fresh { All IsFresh (map D.meaning disks.items) }
        ensures stands { IfOk result (λ s. StandsFor s (opened (pools_dealt LANES (map D.meaning disks.items)))) }
        ensures grain { IfOk result (λ s. s.control.grain ≡ grain) }
        ensures quiet { IfOk result (λ s. silent_of (map D.meaning disks.items) ≡ 0 → AreQuiet s.lanes) }
        ensures disks { IfOk result (λ s. disks_in s.lanes ≡ pool_of (map D.meaning disks.items)) }
        ensures silent { IfOk result (λ s. silent_in s.lanes ≡ silent_of (map D.meaning disks.items)) }
    {
        let lists = match deal(alloc, LANES as usize, disks) {
            Ok(lists) => lists,
            Err(NoMemory) => return Err(NoMemory),
        };
        let lanes = match make_lanes(alloc, grain, lists) {
            Ok(lanes) => lanes,
            Err(NoMemory) => return Err(NoMemory),
        };
        Ok(Store {
            alloc,
            control: Control::new(alloc, grain),
            lanes,
        })
    }

    /// Appends all disks as they are, lane by lane, to a list that has room for them.
    pub fn give_disks(self, into: &mut Vec<D>)
        requires { vec_len into.old + total_of (disks_in self.lanes) ≤ vec_capacity into.old }
        ensures { (given : List D) × (into.new.items ≡ into.old.items ++ given) × AreAllIn self.lanes (map D.meaning given)
            × AreByLane self.lanes (map D.meaning given) }
    {
        let Store { lanes, .. } = self;
        give_lanes(VecDeque::from(lanes), into);
    }
}
