//! Why lines `read`, `write` and `mkpreset` are refused.

ghost use Rattle.std.specs.Prelude.{◌≡◌};
ghost use Rattle.fc_books.specs.Refused.{access_refused, preset_refused};
ghost use Rattle.fc_entry.specs.Refused.{blocks_refusal};

use crate::record::Record;
use fc_base::fault::{Kind, Refusal, ValueOf};
use fc_base::limits::MAX_BLOCKS;
use fc_base::name::Ref;
use fc_base::size::GrainSize;
use fc_base::volume::Volume;

/// Why blocks of a volume can't be read or written: they are more than 8,192, none, or not all inside it.
fn blocks_refusal(size: GrainSize, volume: &Volume, block: u32, count: u32) -> Option<Refusal>
    ensures { result ≡ blocks_refusal size volume.now block count }
{
    if count > MAX_BLOCKS {
        return Some(Refusal::Limit(MAX_BLOCKS));
    }
    let blocks = u64::from(volume.grains) * u64::from(size.blocks());
    if count == 0 || blocks < u64::from(block) + u64::from(count) {
        Some(Refusal::BadValue(ValueOf::Blocks))
    } else {
        None
    }
}

impl Record {
    /// Why an access is refused: no volume is meant, or its blocks can't be reached. None exactly where it
    /// isn't refused, and goes to the lanes.
    pub fn refused_access(&self, volume: &Ref, block: u32, count: u32) -> Option<Refusal>
        ensures { result ≡ access_refused self.now.grain self.now.whole.books volume.now block count }
    {
        match self.kept.control.registry().volume(volume) {
            Some(found) => blocks_refusal(self.kept.control.grain(), found, block, count),
            None => Some(Refusal::NoSuch(Kind::Vdisk)),
        }
    }

    /// Why a preset is refused: no volume is meant. None exactly where it isn't refused, and other lines are
    /// asked in its place.
    pub fn refused_preset(&self, source: &Ref) -> Option<Refusal>
        ensures { result ≡ preset_refused self.now.whole.books source.now }
    {
        match self.kept.control.registry().volume(source) {
            Some(_) => None,
            None => Some(Refusal::NoSuch(Kind::Vdisk)),
        }
    }
}
