//! Disks that agree by metadata: what may be recovered over the one may be recovered over the others.
//!
//! A store's lanes don't say which bytes stand in a lost grain, so the disks of a stopped store are known but for those
//! (`specs/Agreeing`). And between the actions of an entry a stop finds what stands there (`specs/Coming`). `specs/Law` says what
//! goes over.
#![tactic(auto)]

ghost use Rattle.law_agreeing.specs.Law.{AgreeingLaw};

/// The law of disks that agree. It does nothing; a caller learns the law.
pub fn agreeing_law()
    ensures { AgreeingLaw }
{}
