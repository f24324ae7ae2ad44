//! The law of sums: what lanes count adds up to what all grains count.
//!
//! Each lane has its part of the chains (`fc_legal`, `specs/Whole`), and a store answers questions on all grains (the trait
//! `Sheet`) from what its lanes tell. The law says that the grains held and needed are sums over the lanes; that a part has
//! all slots, in their order; that a slot reads from another where it does in some lane, and so who depends on it; that a
//! slot is unneeded where it is in every lane; and that the sheet of all is found again from its parts. So are the grains with
//! which an incremental mapping would begin again, and the grains of a volume that occupy memory: they are counted lane by lane,
//! and the rows and the rooms of all are found again.
//!
//! To read: `specs/Parts` (the parts of all lanes, and the sheet, the rows and the rooms that they are parts of), `specs/Law`
//! (what is said); then `proofs/`: `Sums` (numbers counted lane by lane), `Dividing` (counts), `Slots`, `Reading`, `Depending`,
//! `Unneeded`, `Joining`, `JoiningBits`, `JoiningRows`, `Pooling`, `Lawful`.
#![tactic(auto)]

ghost use Rattle.fc_sums.specs.Law.{SumLaw};

/// The law of sums. It does nothing; a caller learns the law.
pub fn sum_law()
    ensures { SumLaw }
{}
