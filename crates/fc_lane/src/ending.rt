//! The entries of a lane's steps.

ghost use Rattle.std.specs.Prelude.{◌≡◌, ◌<◌, [], None};
ghost use Rattle.fc_steps.specs.Asking.{done_of, request_of};
ghost use Rattle.fc_steps.specs.Asking.{steps_entry};

use crate::lane::Lane;
use fc_base::list::List;
use fc_base::request::{Move, Place, Reply, Request};
use fc_entry::entry::Entry;
use fc_mdisk::mdisk::Mdisk;
use fc_steps::ask::{Ask, reply_of, request_of, torn_of};
use fc_steps::body::StepEnd;
use std::alloc::Global;

impl<D: Mdisk> Lane<D> {
    /// The entry of steps that ended so.
    pub(crate) fn ended(
        &self,
        alloc: Global,
        number: u64,
        actor: u32,
        ask: Ask,
        before: u64,
        moves: List<Move>,
        end: StepEnd,
    ) -> Entry
        ensures { result ≡ steps_entry self.now.lane number actor (request_of ask) (done_of ask) before self.now.grains.faults moves end.calls end.stop }
    {
        Entry {
            number,
            actor,
            place: Place::Lane(self.lane),
            request: request_of(ask),
            reply: reply_of(ask, end.stop),
            moves,
            effects: List::new(alloc),
            torn: torn_of(end.stop),
            faults_before: before,
            faults_after: self.body.grains.faults(),
            calls: end.calls,
        }
    }

    /// The entry of a request that ends now, after so many calls of disks and no move.
    pub(crate) fn answered(
        &self,
        alloc: Global,
        number: u64,
        actor: u32,
        request: Request,
        reply: Reply,
        before: u64,
        calls: u32,
    ) -> Entry
        ensures { result ≡ steps_entry self.now.lane number actor request reply before self.now.grains.faults [] calls None }
    {
        Entry {
            number,
            actor,
            place: Place::Lane(self.lane),
            request,
            reply,
            moves: List::new(alloc),
            effects: List::new(alloc),
            torn: None,
            faults_before: before,
            faults_after: self.body.grains.faults(),
            calls,
        }
    }

    /// The entry of a request for which nothing is done.
    pub(crate) fn untouched(
        &self,
        alloc: Global,
        number: u64,
        actor: u32,
        request: Request,
        reply: Reply,
    ) -> Entry
        ensures { result ≡ steps_entry self.now.lane number actor request reply self.now.grains.faults self.now.grains.faults [] 0 None }
    {
        let faults = self.body.grains.faults();
        self.answered(alloc, number, actor, request, reply, faults, 0)
    }
}
