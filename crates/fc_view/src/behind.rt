//! What is known behind the entries that were drawn.

ghost use Rattle.std.specs.Prelude.{◌≡◌, IfOk};
ghost use Rattle.fc_check.specs.Traces.{nothing_told};
ghost use Rattle.fc_reading.specs.Header.{AreFour};
ghost use Rattle.fc_view.specs.Behind.{IsBehind};

use fc_base::outcome::NoMemory;
use fc_check::judge::Progress;
use fc_drawing::arrivals::Arrivals;
use fc_drawing::totals::Totals;
use fc_model::PlainSheet;
use fc_origins::Origins;
use fc_trace::header::Header;
use std::alloc::Global;

/// What is known behind the entries that were drawn, all of which are right.
#[derive(Drop)]
pub struct Behind {
    /// The entries, and all that may be told after them.
    pub progress: Progress,
    /// The chains after them.
    pub sheet: PlainSheet,
    /// By which writes what plain volumes hold came.
    pub origins: Origins,
    /// How grains came to slots.
    pub arrivals: Arrivals,
    /// The moves so far, by pair of volumes.
    pub totals: Totals,
}

impl Behind {
    /// Behind the first line, nothing. Refused for want of memory alone.
    pub fn open(alloc: Global, header: &Header) -> Result<Behind, NoMemory>
        requires { AreFour header.now.lanes }
        ensures behind { IfOk result (λ behind. IsBehind header.now behind) }
        ensures none { IfOk result (λ behind. behind.progress.history ≡ nothing_told) }
    {
        let progress = Progress::open(alloc, header)?;
        Ok(Behind {
            progress,
            sheet: PlainSheet::new(alloc),
            origins: Origins::new(alloc),
            arrivals: Arrivals::new(alloc),
            totals: Totals::new(alloc),
        })
    }
}
