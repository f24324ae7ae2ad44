//! Disks of both kinds, in the order in which they are taken.

ghost use Rattle.std.specs.Prelude.{◌≡◌, ◌+◌, ◌^◌, ◌<◌, ◌≤◌, ◌∷◌, ◌++◌, length, drop, map, vec_len, vec_capacity, List, IfOk, OnOk, OnErr};
ghost use Rattle.std.specs.List.{All};
ghost use Rattle.fc_mdisk.specs.Disks.{disk_at};
ghost use Rattle.fc_grains.specs.Grains.{IsUnarmed, by_kind, pool_of};
ghost use Rattle.fc_grains.specs.Parts.{SameDisks, disks_in, formatted_in, left_in, queue_of, with_queue};

use fc_base::disk::DiskKind;
use fc_base::outcome::NoMemory;
use fc_mdisk::mdisk::Mdisk;
use std::alloc::Global;
use std::collections::VecDeque;
use std::marker::Model;

/// Disks with no armed fault, of each kind in the order in which they are taken.
#[derive(Drop)]
pub(crate) struct Queues<D: Mdisk> {
    flat: VecDeque<D>,
    thin: VecDeque<D>,
}

impl<D: Mdisk> Model for Queues<D> {
    ghost use Rattle.std.specs.Prelude.{map};
    ghost use Rattle.fc_grains.specs.Parts.{QueuesState, AreSorted};

    ghost Value = { QueuesState };

    ghost view = { λ q. record { flat = map D.meaning q.flat.items; thin = map D.meaning q.thin.items } };

    ghost invariant = { λ q. AreSorted (map D.meaning q.flat.items) (map D.meaning q.thin.items) };
}

impl<D: Mdisk> Queues<D> {
    /// These disks, in this order. Refused, the disks are gone.
    pub(crate) fn new(alloc: Global, mut disks: Vec<D>) -> Result<Queues<D>, NoMemory>
        requires few { vec_len disks < 2 ^ 30 }
        requires unarmed { All IsUnarmed (map D.meaning disks.items) }
        ensures left { IfOk result (λ q. left_in q ≡ pool_of (map D.meaning disks.items)) }
        ensures disks { IfOk result (λ q. SameDisks (disks_in q) (map D.meaning disks.items)) }
        ensures sorted { IfOk result (λ q. disks_in q ≡ by_kind (map D.meaning disks.items)) }
        ensures number { IfOk result (λ q. length (disks_in q) ≡ vec_len disks) }
    {
        let mut queues = Queues {
            flat: VecDeque::new(alloc),
            thin: VecDeque::new(alloc),
        };
        while let Some(disk) = disks.pop() {
            match queues.put_first(disk) {
                Ok(()) => {}
                Err(NoMemory) => return Err(NoMemory),
            }
        }
        Ok(queues)
    }

    /// Puts a disk before the others of its kind. Refused, it is gone.
    pub(crate) fn put_first(&mut self, disk: D) -> Result<(), NoMemory>
        requires few { length (disks_in self.old) < 2 ^ 30 }
        requires unarmed { IsUnarmed (D.meaning disk) }
        ensures ok { OnOk result (self.new ≡ with_queue (D.meaning disk).kind (D.meaning disk ∷ queue_of (D.meaning disk).kind self.old) self.old) }
        ensures err { OnErr result (self.new ≡ self.old) }
    {
        match disk.kind() {
            DiskKind::Flat => match self.flat.push_front(disk) {
                Ok(()) => Ok(()),
                Err(_) => Err(NoMemory),
            },
            DiskKind::Thin => match self.thin.push_front(disk) {
                Ok(()) => Ok(()),
                Err(_) => Err(NoMemory),
            },
        }
    }

    /// How many disks of a kind there are.
    pub(crate) fn len(&self, kind: DiskKind) -> u32
        ensures { result ≡ length (queue_of kind self.now) }
    {
        match kind {
            DiskKind::Flat => self.flat.len() as u32,
            DiskKind::Thin => self.thin.len() as u32,
        }
    }

    /// Formats a disk (`Mdisk::format`). Refused, all are as they were.
    pub(crate) fn format(
        &mut self,
        kind: DiskKind,
        place: usize,
        grains: u32,
        bytes: u32,
    ) -> Result<(), NoMemory>
        requires { place < length (queue_of kind self.old) }
        ensures ok { OnOk result (self.new ≡ formatted_in kind place grains bytes self.old) }
        ensures err { OnErr result (self.new ≡ self.old) }
    {
        match kind {
            DiskKind::Flat => self.flat[place].format(grains, bytes),
            DiskKind::Thin => self.thin[place].format(grains, bytes),
        }
    }

    /// Takes the first disk of a kind.
    pub(crate) fn take_first(&mut self, kind: DiskKind) -> D
        requires { 0 < length (queue_of kind self.old) }
        ensures first { D.meaning result ≡ disk_at (queue_of kind self.old) 0 }
        ensures rest { self.new ≡ with_queue kind (drop 1 (queue_of kind self.old)) self.old }
        ensures kind { (D.meaning result).kind ≡ kind }
        ensures unarmed { IsUnarmed (D.meaning result) }
    {
        match kind {
            DiskKind::Flat => match self.flat.pop_front() {
                Some(disk) => disk,
                None => unreachable!(),
            },
            DiskKind::Thin => match self.thin.pop_front() {
                Some(disk) => disk,
                None => unreachable!(),
            },
        }
    }

    /// Appends all disks.
    pub(crate) fn give_disks(self, into: &mut Vec<D>)
        requires { vec_len into.old + length (disks_in self) ≤ vec_capacity into.old }
        ensures given { (given : List D) × (into.new.items ≡ into.old.items ++ given) × (map D.meaning given ≡ disks_in self) }
        ensures room { vec_capacity into.old ≤ vec_capacity into.new }
    {
        let Queues { mut flat, mut thin } = self;
        append_queue(&mut flat, into);
        append_queue(&mut thin, into);
    }
}

/// Appends the disks of a queue, in order.
fn append_queue<D: Mdisk>(queue: &mut VecDeque<D>, into: &mut Vec<D>)
    requires { vec_len into.old + length queue.old.items ≤ vec_capacity into.old }
    ensures items { into.new.items ≡ into.old.items ++ queue.old.items }
    ensures room { vec_capacity into.old ≤ vec_capacity into.new }
{
    while let Some(disk) = queue.pop_front() {
        if into.push(disk).is_err() {
            unreachable!()
        }
    }
}
