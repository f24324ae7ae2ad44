//! The chains of a store.

ghost use Rattle.std.specs.Prelude.{◌≡◌, ℕ, ◌<◌, ◌^◌};
ghost use Rattle.fc_legal.specs.Whole.{Whole};
ghost use Rattle.fc_lane_sheet.specs.LaneSheet.{AreCountable};
ghost use Rattle.fc_stands.specs.Phase.{StandsAt};

use crate::store::Store;
use fc_base::volume::Volume;
use fc_lane_sheet::sheet::LaneSheet;
use fc_mdisk::mdisk::Mdisk;

/// A `u32` counts the grains of a volume.
fn count_grains(volume: &Volume)
    ensures { volume.now.grains < 2 ^ 32 }
{
    let _grains = volume.grains;
}

/// And those of each of these. Changes nothing: they are read for what is known of them then.
fn count_all_grains(volumes: &[Volume])
    ensures { AreCountable volumes.now }
{
    for volume in volumes {
        count_grains(volume);
    }
}

impl<D: Mdisk> Store<D> {
    /// The chains of all lanes together, beside the table of mappings.
    pub(crate) fn sheet(&self) -> LaneSheet<'_, D>
        requires stands { (decisions : ℕ) × (w : Whole) × StandsAt decisions self.now w }
        ensures { result ≡ self.now.lanes }
    {
        count_all_grains(self.control.registry().all_volumes());
        LaneSheet::new(
            self.lanes.as_slice(),
            self.control.registry().all_mappings(),
        )
    }
}
