//! The laws of pictures, steps and lanes: the chains and the physical grains of a lane keep showing what plain
//! volumes hold.
//!
//! A picture is what plain volumes hold (`fc_entry`, `specs/Picture`), a sheet has the chains of copies
//! (`fc_base`, `specs/Sheet`). The two agree where the picture's volumes are those of the live slots, and each
//! shows at every grain what its holder's volume stores there (`fc_rules`, `specs/Shows`). The law of
//! pictures says that this is so with no volumes, and stays so at every event that fits, every safe move and
//! write, and every one of these that fails; and that safe moves and writes fit the chains. The law of
//! steps says that while the moves of a fill or a write are made one after the other, each is safe when its turn
//! comes and has the mark that entries tell, and so is the write after them. The law of lanes says both of what a
//! lane's past tells (`fc_rules`, `specs/LaneTold`).
//!
//! To read: `specs/Law`, `specs/StepsLaw` and `specs/LaneLaw`, what is said; then `proofs/`: `Volumes` (plain facts on pictures),
//! `Staying` (a slot that stays shows what it did), `Leaving`, `Splits`, `Forces` and `Triggers` (the events), `Grains`
//! (moves and writes, seen at their grain), `Fitting`, `Lawful`; `Running` (the law of steps), `Agreeing` (the law of lanes); and `Examples`, small
//! runs that are known by hand.
#![tactic(auto)]

ghost use Rattle.fc_pictures.specs.Law.{PictureLaw};
ghost use Rattle.fc_pictures.specs.StepsLaw.{StepsLaw};
ghost use Rattle.fc_pictures.specs.LaneLaw.{LaneLaw};

/// The law of pictures. It does nothing; a caller learns the law.
pub fn picture_law()
    ensures { PictureLaw }
{}

/// The law of steps. It does nothing; a caller learns the law.
pub fn steps_law()
    ensures { StepsLaw }
{}

/// The law of lanes. It does nothing; a caller learns the law.
pub fn lane_law()
    ensures { LaneLaw }
{}
