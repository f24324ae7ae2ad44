//! Slots: the states of volumes that the chains of copies are made of.
//!
//! A `Slot` is a state of a volume: live (the volume as hosts see it) or old, with the grains that it holds. The slots of a
//! lane stand in one list, those of one chain together and in its order. Contracts see a slot as that of
//! `fc_base`, `specs/Sheet`, and a list of slots as the plain list.
//!
//! To read: `slot` (one slot), `find` (where the slot of a volume, a mapping or a birth stands), `walk` (which slot of a chain holds
//! a grain for another, and which reads it there) and `split` (a chain in two). Nothing here takes memory. The words are in
//! `specs/`: `Contiguous` (a walk ends with its chain), `Walks`, `Found` and `Births`.
#![tactic(auto)]

pub mod find;
pub mod slot;
pub mod split;
pub mod walk;
