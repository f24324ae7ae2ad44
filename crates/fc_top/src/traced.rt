//! The form in which the history of a run is written.

ghost use Rattle.std.specs.Prelude.{◌≡◌, ◌+◌, ◌<◌, ◌^◌, cond, length, map};
ghost use Rattle.fc_grains.specs.Grains.{pool_of};
ghost use Rattle.fc_lanes.specs.Dealing.{dealt, pools_dealt};
ghost use Rattle.fc_mdisk.specs.Disk.{is_flat};
ghost use Rattle.fc_top.specs.Traced.{header_of, lane_disks, run_form};

use fc_args::asked::RunOptions;
use fc_base::disk::DiskKind;
use fc_base::size::GrainSize;
use fc_mdisk::mdisk::Mdisk;
use fc_run::form::Form;
use fc_trace::header::{Header, LaneDisks};

/// With one disk of this kind more, if it is the lane's own.
fn with_disk(of: LaneDisks, own: bool, kind: DiskKind) -> LaneDisks
    requires few { of.flat < 2 ^ 30 }
    requires few_thin { of.thin < 2 ^ 30 }
    ensures flat { result.flat ≡ of.flat + cond own (cond (is_flat kind) 1 0) 0 }
    ensures thin { result.thin ≡ of.thin + cond own (cond (is_flat kind) 0 1) 0 }
{
    if !own {
        return of;
    }
    match kind {
        DiskKind::Flat => LaneDisks {
            flat: of.flat + 1,
            thin: of.thin,
        },
        DiskKind::Thin => LaneDisks {
            flat: of.flat,
            thin: of.thin + 1,
        },
    }
}

/// How many of these disks of each kind are dealt to a lane among four.
fn disks_of_lane<D: Mdisk>(disks: &[D], lane: usize) -> LaneDisks
    requires few { length disks.now < 2 ^ 30 }
    ensures { result ≡ lane_disks (pool_of (dealt 4 (map D.meaning disks.now) lane)) }
{
    let mut of = LaneDisks { flat: 0, thin: 0 };
    for place in 0..disks.len() {
        of = with_disk(of, place % 4 == lane, disks[place].kind());
    }
    of
}

/// What the first line of a trace says of a store over these disks.
fn header_of<D: Mdisk>(grain: GrainSize, disks: &[D]) -> Header
    requires few { length disks.now < 2 ^ 30 }
    ensures { result ≡ header_of grain (map D.meaning disks.now) }
{
    Header {
        grain,
        lanes: [
            disks_of_lane(disks, 0),
            disks_of_lane(disks, 1),
            disks_of_lane(disks, 2),
            disks_of_lane(disks, 3),
        ],
    }
}

/// In which form the history of a run over these disks is written: as a trace where it is asked for, else in text.
pub(crate) fn run_form<D: Mdisk>(options: RunOptions, disks: &[D]) -> Form
    requires few { length disks.now < 2 ^ 30 }
    ensures { result ≡ run_form options (map D.meaning disks.now) }
{
    if options.trace {
        Form::Trace(header_of(options.grain, disks))
    } else {
        Form::Text
    }
}
