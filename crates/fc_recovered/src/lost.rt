//! Which grains are lost, by an image.

ghost use Rattle.std.specs.Prelude.{◌≡◌, All, map};
ghost use Rattle.fc_base.specs.Tables.{Tables};
ghost use Rattle.fc_kept.specs.Images.{lost_in};
ghost use Rattle.fc_kept.specs.Kept.{is_lost_in};
ghost use Rattle.fc_kept.specs.Sound.{HasTidyLost};

use fc_base::ids::VolId;
use fc_image::MetaLost;

/// Whether a volume's grain is lost.
pub(crate) fn is_lost(rows: &[MetaLost], volume: VolId, grain: u32) -> bool
    ensures { (t : Tables) → All (HasTidyLost t) rows.now → result ≡ is_lost_in (map (lost_in t) rows.now) volume.0 grain }
{
    for row in rows {
        if row.volume.0 == volume.0 {
            return row.lost.has(grain);
        }
    }
    false
}
