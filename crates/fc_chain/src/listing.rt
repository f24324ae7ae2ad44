//! All slots of the chains, as metadata has them.

ghost use Rattle.std.specs.Prelude.{◌≡◌};

use crate::cascade::Cascade;
use fc_slots::slot::Slot;

impl Cascade {
    /// All slots, those of one chain together and in its order.
    pub fn all_slots(&self) -> &[Slot]
        ensures { result.now ≡ self.now.sheet.slots }
    {
        self.slots()
    }

    /// How many births were given: the birth of the next slot.
    pub fn births(&self) -> u64
        ensures { result ≡ self.now.sheet.births }
    {
        self.table.births()
    }
}
