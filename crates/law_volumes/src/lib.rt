//! The law of volumes: the table of volumes changes with `mkvdisk` and `rmvdisk` alone.
//!
//! Books are settled, and decide commands (`fc_books`). The law says that what they are after a settling, and after any
//! command but those two, has the volumes that they had before; and so has what is told after any right entry (`fc_legal`) but
//! those of the two: a turn, an access of a grain, a refused access or preset and an unread line among them. No line in a block of
//! actors (`fc_words`) is one of the two commands, or a preset, in place of which `mkvdisk` is asked; and no script of a block's
//! actors (`fc_blocks`) asks for one. So volumes don't come or go inside a block, and what its actors ask is fixed as the block
//! begins.
//!
//! To read: `specs/Law`, what is said; then `proofs/`: `Changes` (lists of changes that keep volumes, and what they leave),
//! `Deeds` (that those of every deed are such), `Steps` (an entry), `Lines` and `Scripts` (what lines are, and what actors ask),
//! `Volumes`, the law from these parts, and `VolumesExamples`.
#![tactic(auto)]

ghost use Rattle.law_volumes.specs.Law.{VolumesLaw};

/// The law of volumes. It does nothing; a caller learns the law.
pub fn volumes_law()
    ensures { VolumesLaw }
{}
