//! Background work: the copies or the cleanings of a mapping, and the credit that they save up.

ghost use Rattle.std.specs.Prelude.{◌≡◌, ◌≤◌, ◌↔◌, ◌++◌, ◌∷◌, [], IsTrue, IfOk, OnOk, cond, true, false};
ghost use Rattle.fc_base.specs.Grain.{grain_kib};
ghost use Rattle.fc_check_requests.specs.Works.{has_flag, work_of, works_by, works_of};
ghost use Rattle.fc_legal.specs.Seconds.{gained, spent};

use fc_base::ids::MapId;
use fc_base::outcome::NoMemory;
use fc_base::size::GrainSize;
use fc_base::volume::Mapping;
use fc_desk::{has_cleans, has_copies};
use fc_pick::WorkFlags;
use fc_rates::kib_per_second;
use std::alloc::Global;
use std::collections::VecDeque;
use std::marker::Model;

/// The copies or the cleanings of a mapping: what a second is worth to them, and their credit, both in KiB.
#[derive(Drop)]
pub struct Work {
    map: MapId,
    cleans: bool,
    gain: u32,
    credit: u64,
}

impl Model for Work {
    ghost use Rattle.fc_legal.specs.Seconds.{Work as WorkState};

    ghost Value = { WorkState };

    ghost view = { λ w. record { map = w.map; cleans = w.cleans; gain = w.gain; credit = w.credit } };
}

impl Work {
    /// The cleanings of a mapping, or its copies, without credit.
    fn of(mapping: &Mapping, cleans: bool) -> Work
        ensures { result ≡ work_of cleans mapping.now }
    {
        Work {
            map: mapping.id,
            cleans,
            gain: kib_per_second(rate_of(mapping, cleans)),
            credit: 0,
        }
    }

    /// The mapping.
    pub fn map(&self) -> MapId
        ensures { result ≡ self.now.map }
    {
        self.map
    }

    /// Whether its credit is worth a grain of this size.
    pub fn is_worth(&self, grain: GrainSize) -> bool
        ensures { IsTrue result ↔ (grain_kib grain ≤ self.now.credit) }
    {
        u64::from(grain.kib()) <= self.credit
    }

    /// Whether it cleans; else it copies.
    pub fn cleans(&self) -> bool
        ensures { result ≡ self.now.cleans }
    {
        self.cleans
    }

    /// It gains what a second is worth to it. The credit stops at 2^64 - 1.
    pub fn gain(&mut self)
        ensures { self.new ≡ gained self.old }
    {
        self.credit = self.credit.saturating_add(u64::from(self.gain));
    }

    /// It pays for a grain of this size, as far as its credit goes.
    pub fn spend(&mut self, grain: GrainSize)
        ensures { self.new ≡ spent grain self.old }
    {
        self.credit = self.credit.saturating_sub(u64::from(grain.kib()));
    }

    /// It loses its credit.
    pub fn lose(&mut self)
        ensures { self.new ≡ record self.old { credit = 0 } }
    {
        self.credit = 0;
    }

    /// The same again.
    pub fn copy(&self) -> Work
        ensures { result ≡ self.now }
    {
        Work {
            map: self.map,
            cleans: self.cleans,
            gain: self.gain,
            credit: self.credit,
        }
    }
}

/// The rate of a mapping's cleanings, or of its copies.
fn rate_of(mapping: &Mapping, cleans: bool) -> u8
    ensures { result ≡ cond cleans mapping.now.clean_rate mapping.now.copy_rate }
{
    if cleans {
        mapping.clean_rate
    } else {
        mapping.copy_rate
    }
}

/// Whether a mapping has the flag for its cleanings, or for its copies.
fn has_flag(flags: &[WorkFlags], mapping: &Mapping, cleans: bool) -> bool
    ensures { result ≡ has_flag cleans flags.now mapping.now }
{
    if cleans {
        has_cleans(flags, mapping)
    } else {
        has_copies(flags, mapping)
    }
}

/// Adds the work of the mapping, if it has the flag for it.
fn add_work(
    works: &mut VecDeque<Work>,
    flags: &[WorkFlags],
    mapping: &Mapping,
    cleans: bool,
) -> Result<(), NoMemory>
    ensures { OnOk result (works.new.items ≡ works.old.items ++ cond (has_flag cleans flags.now mapping.now) (work_of cleans mapping.now ∷ []) []) }
{
    if !has_flag(flags, mapping, cleans) {
        return Ok(());
    }
    match works.push_back(Work::of(mapping, cleans)) {
        Ok(()) => Ok(()),
        Err(_) => Err(NoMemory),
    }
}

/// Adds all cleanings, or all copies.
fn add_works(
    works: &mut VecDeque<Work>,
    flags: &[WorkFlags],
    mappings: &[Mapping],
    cleans: bool,
) -> Result<(), NoMemory>
    ensures { OnOk result (works.new.items ≡ works.old.items ++ works_of cleans flags.now mappings.now) }
{
    for mapping in mappings {
        add_work(works, flags, mapping, cleans)?;
    }
    Ok(())
}

/// All background work of these mappings, by their flags: all copies, and then all cleanings, without credit. Refused for want of
/// memory alone.
pub fn all_work(
    alloc: Global,
    flags: &[WorkFlags],
    mappings: &[Mapping],
) -> Result<VecDeque<Work>, NoMemory>
    ensures { IfOk result (λ works. works.items ≡ works_by flags.now mappings.now) }
{
    let mut works = VecDeque::new(alloc);
    add_works(&mut works, flags, mappings, false)?;
    add_works(&mut works, flags, mappings, true)?;
    Ok(works)
}
