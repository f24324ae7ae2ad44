//! The comparison of small values, lists, and values that may be missing.

ghost use Rattle.std.specs.Prelude.{◌≡◌, ◌↔◌, IsTrue};

use fc_base::command::Unit;
use fc_base::ids::VolId;
use fc_base::list::List;
use fc_base::ranges::Range;
use fc_base::request::Pair;
use fc_base::runs::Run;
use fc_base::size::GrainSize;

/// What can be compared as a whole.
pub trait Same {
    /// Whether both are one value.
    fn is_same(&self, other: &Self) -> bool
        ensures { IsTrue result ↔ (self.now ≡ other.now) };
}

impl Same for u8 {
    fn is_same(&self, other: &u8) -> bool {
        *self == *other
    }
}

impl Same for u32 {
    fn is_same(&self, other: &u32) -> bool {
        *self == *other
    }
}

impl Same for VolId {
    fn is_same(&self, other: &VolId) -> bool {
        *self == *other
    }
}

impl Same for Unit {
    fn is_same(&self, other: &Unit) -> bool {
        *self == *other
    }
}

impl Same for GrainSize {
    fn is_same(&self, other: &GrainSize) -> bool {
        *self == *other
    }
}

impl Same for Pair {
    fn is_same(&self, other: &Pair) -> bool {
        *self == *other
    }
}

impl Same for Range {
    fn is_same(&self, other: &Range) -> bool {
        *self == *other
    }
}

impl Same for Run {
    fn is_same(&self, other: &Run) -> bool {
        *self == *other
    }
}

impl<T: Same> Same for Option<T> {
    fn is_same(&self, other: &Option<T>) -> bool {
        match (self, other) {
            (Some(own), Some(value)) => own.is_same(value),
            (None, None) => true,
            _ => false,
        }
    }
}

impl<T: Same> Same for List<T> {
    fn is_same(&self, other: &List<T>) -> bool {
        all_same(self.as_slice(), other.as_slice())
    }
}

/// Whether two lists have the same items, one by one.
pub fn all_same<T: Same>(items: &[T], others: &[T]) -> bool
    ensures { IsTrue result ↔ (items.now ≡ others.now) }
{
    if items.len() != others.len() {
        return false;
    }
    for (item, other) in items.iter().zip(others) {
        if !item.is_same(other) {
            return false;
        }
    }
    true
}
