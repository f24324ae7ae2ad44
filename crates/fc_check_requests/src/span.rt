//! An access of which some grains are left.

ghost use Rattle.std.specs.Prelude.{◌≡◌, ◌↔◌, ◌+◌, ◌-◌, ◌<◌, ◌≤◌, ◌^◌, IsTrue};
ghost use Rattle.fc_base.specs.declared.request.Request.{Request};
ghost use Rattle.fc_check_requests.specs.Requests.{part_asked};
ghost use Rattle.fc_legal.specs.Asked.{end_in, first_in};

use fc_base::ids::VolId;
use fc_base::request::{ReadPart, Request, WritePart};
use fc_base::size::GrainSize;

/// A read or write of blocks of a volume, of which some grains are left.
#[derive(Clone, Copy)]
pub struct Span {
    /// The grain size.
    pub grain: GrainSize,
    /// The volume.
    pub volume: VolId,
    /// The first block, from 0.
    pub block: u32,
    /// How many blocks.
    pub count: u32,
    /// The byte that a write gives to them; none for a read.
    pub byte: Option<u8>,
    /// The next grain.
    pub next: u32,
    /// How many grains are left, from the next on.
    pub left: u32,
}

/// Whether this is a read of these blocks.
fn is_read(request: &Request, own: ReadPart) -> bool
    ensures { IsTrue result ↔ (Request.Read own ≡ request.now) }
{
    match request {
        Request::Read(part) => *part == own,
        _ => false,
    }
}

/// Whether this is a write of these blocks.
fn is_write(request: &Request, own: WritePart) -> bool
    ensures { IsTrue result ↔ (Request.Write own ≡ request.now) }
{
    match request {
        Request::Write(part) => *part == own,
        _ => false,
    }
}

impl Span {
    /// Its blocks in the next grain: the first of them, and how many.
    fn blocks(self) -> (u64, u32)
        ensures first { result.0 ≡ first_in self.grain self.block self.next }
        ensures count { result.1 ≡ end_in self.grain (self.block + self.count) self.next - result.0 }
    {
        let blocks = u64::from(self.grain.blocks());
        let begins = u64::from(self.block);
        let ends = begins + u64::from(self.count);
        let first = begins.max(u64::from(self.next) * blocks);
        let end = ends.min((u64::from(self.next) + 1) * blocks);
        (first, end.saturating_sub(first) as u32)
    }

    /// Whether this is its request in the next grain.
    pub fn asks(self, request: &Request) -> bool
        ensures { IsTrue result ↔ (part_asked self.grain self.volume self.block self.count self.byte self.next ≡ request.now) }
    {
        let volume = self.volume;
        let (block, count) = self.blocks();
        match self.byte {
            None => is_read(
                request,
                ReadPart {
                    volume,
                    block,
                    count,
                },
            ),
            Some(byte) => is_write(
                request,
                WritePart {
                    volume,
                    block,
                    count,
                    byte,
                },
            ),
        }
    }

    /// The same access without the next grain, of which there are two or more.
    pub fn behind_next(self) -> Span
        requires many { 1 < self.left }
        requires counted { self.next + self.left ≤ 2 ^ 32 }
        ensures { result ≡ record self { next = self.next + 1; left = self.left - 1 } }
    {
        Span {
            next: self.next + 1,
            left: self.left - 1,
            ..self
        }
    }
}
