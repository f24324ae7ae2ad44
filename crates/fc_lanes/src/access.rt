//! One access of blocks of one grain.

ghost use Rattle.std.specs.Prelude.{◌≡◌, ◌<◌, ◌^◌};
ghost use Rattle.fc_entry.specs.Picture.{grain_of_block};
ghost use Rattle.fc_follow.specs.Following.{Followed};
ghost use Rattle.fc_lane.specs.Entering.{HasFollowed};
ghost use Rattle.fc_lane.specs.Lane.{IsFollowing, IsReady, of};
ghost use Rattle.fc_rules.specs.LaneFits.{FitsPart};
ghost use Rattle.fc_lanes.specs.Asking.{command_of, request_of};

use fc_base::command::Command;
use fc_base::ids::VolId;
use fc_base::name::Ref;
use fc_base::request::{ReadPart, WritePart};
use fc_entry::entry::Entry;
use fc_lane::lane::Lane;
use fc_mdisk::mdisk::Mdisk;
use std::alloc::Global;

/// What an access does with its blocks.
#[derive(Clone, Copy, PartialEq, Eq)]
pub enum Access {
    /// They are read.
    Read,
    /// They are written with this byte.
    Write(u8),
}

impl Access {
    /// The command of an access.
    pub fn command(self, volume: Ref, block: u32, count: u32) -> Command
        ensures { result ≡ command_of self volume block count }
    {
        match self {
            Access::Read => Command::Read {
                volume,
                block,
                count,
            },
            Access::Write(byte) => Command::Write {
                volume,
                block,
                count,
                byte,
            },
        }
    }
}

/// Reads or writes blocks of one grain in its lane, by an actor, where room was made for the entry (`Lane::make_room`). The
/// entry that it answers is right, and the lane stands for what is told with it; nobody keeps it yet.
pub fn access_lane<D: Mdisk>(
    alloc: Global,
    lane: &mut Lane<D>,
    number: u64,
    actor: u32,
    access: Access,
    volume: VolId,
    block: u64,
    count: u32,
) -> Entry
    requires can { (f : Followed) × IsFollowing lane.old f × FitsPart (of lane.old) f.told volume block count }
    requires ready { IsReady lane.old }
    requires number { grain_of_block lane.old.grains.grain block < 2 ^ 32 }
    ensures { HasFollowed lane.old (λ told. FitsPart (of lane.old) told volume block count) number actor (request_of access volume block count) result lane.new }
{
    match access {
        Access::Read => {
            let part = ReadPart {
                volume,
                block,
                count,
            };
            lane.read(alloc, number, actor, part)
        }
        Access::Write(byte) => {
            let part = WritePart {
                volume,
                block,
                count,
                byte,
            };
            lane.write(alloc, number, actor, part)
        }
    }
}
