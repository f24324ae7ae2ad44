//! One mapping that is followed, and at which grains its volumes show the same.

ghost use Rattle.std.specs.Prelude.{◌≡◌, IfOk, length, replicate, true, false};
ghost use Rattle.fc_changed.specs.Notes.{joins};
ghost use Rattle.fc_changed.specs.Row.{row_names, row_began, row_wrote, row_left, row_cut};
ghost use Rattle.fc_diff.specs.Told.{row_after, volume_of, FitsRow};

use fc_base::outcome::NoMemory;
use fc_bits::GrainSet;
use std::alloc::Global;
use std::marker::Model;

/// What happens to the mappings that name a volume.
#[derive(Clone, Copy)]
pub(crate) enum Event<'a> {
    /// A trigger from source to target.
    Began { source: u32, target: u32 },
    /// The volume's grain was written, or spoiled.
    Wrote { volume: u32, grain: u32 },
    /// A copy to the target left, when its slot held these grains.
    Left { target: u32, held: &'a GrainSet },
    /// The target was cut: a copy to it left incomplete.
    Cut { target: u32 },
}

/// A mapping that is followed, or stands ready to be.
#[derive(Drop)]
pub struct Tracked {
    map: u32,
    source: u32,
    target: u32,
    into: u32,
    same: GrainSet,
}

impl Model for Tracked {
    ghost use Rattle.fc_changed.specs.Row.{Row};

    ghost Value = { Row };

    ghost view = { λ t. record { map = t.map; source = t.source; target = t.target; into = t.into; same = t.same } };
}

impl Event<'_> {
    /// The volume that each mapping names to which the event means something.
    pub(crate) fn volume(&self) -> u32
        ensures { result ≡ volume_of self.now }
    {
        match self {
            Event::Began { target, .. } => *target,
            Event::Wrote { volume, .. } => *volume,
            Event::Left { target, .. } => *target,
            Event::Cut { target } => *target,
        }
    }
}

impl Tracked {
    /// A mapping that isn't followed yet. Want of memory is the only other answer.
    pub(crate) fn new(
        alloc: Global,
        map: u32,
        source: u32,
        target: u32,
        grains: u32,
    ) -> Result<Tracked, NoMemory>
        ensures { IfOk result (λ row. row ≡ record { map = map; source = source; target = target; into = target; same = replicate grains false }) }
    {
        Ok(Tracked {
            map,
            source,
            target,
            into: target,
            same: GrainSet::new(alloc, grains)?,
        })
    }

    /// Its id.
    pub fn map(&self) -> u32
        ensures { result ≡ self.now.map }
    {
        self.map
    }

    /// Its source.
    pub fn source(&self) -> u32
        ensures { result ≡ self.now.source }
    {
        self.source
    }

    /// Its target.
    pub fn target(&self) -> u32
        ensures { result ≡ self.now.target }
    {
        self.target
    }

    /// The target of the last trigger that joined its volumes; its own before the first one.
    pub fn into(&self) -> u32
        ensures { result ≡ self.now.into }
    {
        self.into
    }

    /// The grains at which both volumes show the same.
    pub fn same(&self) -> &GrainSet
        ensures { result.now ≡ self.now.same }
    {
        &self.same
    }

    /// Its first trigger made the target a copy of the source: both show the same at all grains.
    pub(crate) fn begin(&mut self)
        ensures { self.new ≡ record self.old { into = self.old.target; same = replicate (length self.old.same) true } }
    {
        self.join(self.target);
    }

    /// The event happens, which may be to other volumes than the mapping's.
    pub(crate) fn take(&mut self, event: Event)
        requires { FitsRow event self.old }
        ensures { self.new ≡ row_after event.entry self.old }
    {
        match event {
            Event::Began { source, target } => self.take_trigger(source, target),
            Event::Wrote { volume, grain } => self.take_write(volume, grain),
            Event::Left { target, held } => self.take_leaving(target, held),
            Event::Cut { target } => self.take_cut(target),
        }
    }

    /// A trigger that joins the two volumes makes them the same; another one to either makes them differ.
    fn take_trigger(&mut self, source: u32, target: u32)
        ensures { self.new ≡ row_began source target self.old }
    {
        if is_joining(self.source, self.target, source, target) {
            self.join(target);
        } else if self.names(target) {
            self.same.clear_all();
        }
    }

    /// A write to either volume makes them differ at its grain.
    fn take_write(&mut self, volume: u32, grain: u32)
        ensures { self.new ≡ row_wrote volume grain self.old }
    {
        if self.names(volume) && grain < self.same.len() {
            self.same.clear(grain);
        }
    }

    /// A copy to either volume left: they are the same only where it held the grain.
    fn take_leaving(&mut self, target: u32, held: &GrainSet)
        requires { row_names self.old target ≡ true → length self.old.same ≡ length held.now }
        ensures { self.new ≡ row_left target held.now self.old }
    {
        if self.names(target) {
            self.same.keep_all(held);
        }
    }

    /// A cut of either volume makes them differ, but for the cut of the last trigger's target: of that copy the grains are
    /// told as it leaves.
    fn take_cut(&mut self, target: u32)
        ensures { self.new ≡ row_cut target self.old }
    {
        if self.names(target) && self.into != target {
            self.same.clear_all();
        }
    }

    /// The volume became a copy of the other one: both show the same at all grains.
    fn join(&mut self, into: u32)
        ensures { self.new ≡ record self.old { into = into; same = replicate (length self.old.same) true } }
    {
        self.into = into;
        self.same.set_all();
    }

    /// Whether the volume is one of the two.
    fn names(&self, volume: u32) -> bool
        ensures { result ≡ row_names self.now volume }
    {
        volume == self.source || volume == self.target
    }
}

/// Whether source and target are the two volumes, in either order.
fn is_joining(one: u32, other: u32, source: u32, target: u32) -> bool
    ensures { result ≡ joins one other source target }
{
    (source == one && target == other) || (source == other && target == one)
}
