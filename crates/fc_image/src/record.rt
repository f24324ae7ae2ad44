//! What metadata is told of one grain.

use fc_base::ids::{GrainNo, SlotId, VolId};
use fc_base::request::Side;

/// One step of a grain that is over, or, of `Changing`, is about to begin.
#[derive(Clone, Copy)]
pub enum MetaRecord {
    /// A move: the live slot of the volume holds the grain.
    Pair {
        /// The live slot of the volume.
        slot: SlotId,
        /// The volume that the grain was moved to.
        volume: VolId,
        /// The grain.
        grain: GrainNo,
        /// Whether the grain stood on the volume's disk already. If not, its older slots lose the grain.
        in_place: bool,
        /// Whether the grain was lost where it came from, so that nothing was copied and the volume's grain is lost.
        empty: bool,
    },
    /// A write: the live slot of the volume holds the grain, and its older slots lose it.
    Written {
        /// The volume.
        volume: VolId,
        /// The grain.
        grain: GrainNo,
    },
    /// A write of the volume's disk failed: the grain there is lost.
    Torn {
        /// The volume.
        volume: VolId,
        /// The grain.
        grain: GrainNo,
        /// Whether the lost grain is what the volume shows, or what its older slots held.
        side: Side,
    },
    /// A write is about to begin: the grain counts as changed for each mapping that is followed and names the volume.
    Changing {
        /// The volume.
        volume: VolId,
        /// The grain.
        grain: GrainNo,
    },
}
