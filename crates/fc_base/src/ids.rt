//! The numbers by which volumes, mappings, groups, slots and grains are named. An id is never used again.

/// A volume, counted from 0 in order of making.
#[derive(Clone, Copy, Debug, PartialEq, Eq)]
pub struct VolId(pub u32);

/// A FlashCopy mapping, counted from 0 in order of making.
#[derive(Clone, Copy, Debug, PartialEq, Eq)]
pub struct MapId(pub u32);

/// A consistency group, counted from 1 in order of making.
#[derive(Clone, Copy, Debug, PartialEq, Eq)]
pub struct GroupId(pub u32);

/// A slot of a chain of copies, named by its birth: births count from 0 over the run.
#[derive(Clone, Copy, Debug, PartialEq, Eq)]
pub struct SlotId(pub u64);

/// A grain of a volume, counted from 0.
#[derive(Clone, Copy, Debug, PartialEq, Eq)]
pub struct GrainNo(pub u32);
