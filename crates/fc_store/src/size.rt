//! How large a store is.

ghost use Rattle.std.specs.Prelude.{◌≡◌, length};

use crate::store::Store;
use fc_base::size::GrainSize;
use fc_mdisk::mdisk::Mdisk;

impl<D: Mdisk> Store<D> {
    /// The size of its grains.
    pub fn grain(&self) -> GrainSize
        ensures { result ≡ self.now.control.grain }
    {
        self.control.grain()
    }

    /// How many lanes it has.
    pub fn lanes(&self) -> usize
        ensures { result ≡ length self.now.lanes }
    {
        self.lanes.len()
    }
}
