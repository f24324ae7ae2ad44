//! How many starts, stops, copies and writes a list has.

use fc_base::decision::LaneEvent;
use fc_base::request::Pair;
use fc_model::PlainSheet;

/// What an event is, in a list of starts and stops.
#[derive(Clone, Copy)]
pub enum Kind {
    /// A start; whether a target of it was used as a source, and whether it has several pairs.
    Start {
        /// A target was used as a source.
        restores: bool,
        /// There are several pairs.
        several: bool,
    },
    /// A stop whose slot stays for those that need it.
    Retire,
    /// A stop whose slot nobody needs.
    Detach,
    /// A split.
    Split,
    /// A stop by force.
    Force,
    /// A volume that comes or goes, or an old slot that is dropped.
    Other,
}

/// Whether a target of these pairs is used as a source.
fn restores(plain: &PlainSheet, pairs: &[Pair]) -> bool {
    for pair in pairs {
        if plain.is_used(pair.target) {
            return true;
        }
    }
    false
}

/// What an event is, before it is done.
pub fn kind_of(plain: &PlainSheet, event: &LaneEvent) -> Kind {
    match event {
        LaneEvent::Trigger { pairs } => Kind::Start {
            restores: restores(plain, pairs.as_slice()),
            several: pairs.len() > 1,
        },
        LaneEvent::Retire { .. } => Kind::Retire,
        LaneEvent::Detach { .. } => Kind::Detach,
        LaneEvent::Split { .. } => Kind::Split,
        LaneEvent::Force { .. } => Kind::Force,
        _ => Kind::Other,
    }
}

/// How many of each kind were done.
#[derive(Clone, Copy)]
pub struct Tally {
    starts: u32,
    restores: u32,
    several: u32,
    retired: u32,
    detached: u32,
    split: u32,
    forced: u32,
    copies: u32,
    writes: u32,
}

impl Tally {
    /// Nothing was done.
    pub fn new() -> Tally {
        Tally {
            starts: 0,
            restores: 0,
            several: 0,
            retired: 0,
            detached: 0,
            split: 0,
            forced: 0,
            copies: 0,
            writes: 0,
        }
    }

    /// An event of this kind was done.
    pub fn count(&mut self, kind: Kind) {
        match kind {
            Kind::Start { restores, several } => {
                self.starts = self.starts.saturating_add(1);
                self.restores = self.restores.saturating_add(u32::from(restores));
                self.several = self.several.saturating_add(u32::from(several));
            }
            Kind::Retire => self.retired = self.retired.saturating_add(1),
            Kind::Detach => self.detached = self.detached.saturating_add(1),
            Kind::Split => self.split = self.split.saturating_add(1),
            Kind::Force => self.forced = self.forced.saturating_add(1),
            Kind::Other => {}
        }
    }

    /// A grain was copied or not.
    pub fn count_copy(&mut self, copied: bool) {
        self.copies = self.copies.saturating_add(u32::from(copied));
    }

    /// A grain was written or not.
    pub fn count_write(&mut self, written: bool) {
        self.writes = self.writes.saturating_add(u32::from(written));
    }

    /// Starts and stops.
    pub fn commands(&self) -> u32 {
        self.starts
            .saturating_add(self.retired)
            .saturating_add(self.detached)
            .saturating_add(self.split)
            .saturating_add(self.forced)
    }

    /// Whether there are many of each kind, and restores among the starts.
    pub fn has_many(&self) -> bool {
        self.starts >= 4_000
            && self.restores >= 1_000
            && self.several >= 100
            && self.retired >= 500
            && self.detached >= 500
            && self.split >= 100
            && self.forced >= 200
            && self.copies >= 5_000
            && self.writes >= 1_000
    }
}
