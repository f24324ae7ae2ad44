//! A worker of whose turns some are left.

ghost use Rattle.std.specs.Prelude.{◌≡◌, ◌↔◌, ◌+◌, ◌-◌, ◌<◌, ◌≤◌, ◌^◌, ◌%◌, IsTrue};
ghost use Rattle.fc_base.specs.declared.request.Request.{Request};
ghost use Rattle.fc_check_requests.specs.Requests.{turn_in};

use fc_base::request::Request;

/// The turns of a worker that are left, in the lanes in turn.
#[derive(Clone, Copy)]
pub struct Turns {
    /// Whether it cleans; else it copies.
    pub cleans: bool,
    /// How many lanes there are.
    pub lanes: usize,
    /// The number of the next turn, from 0.
    pub next: u32,
    /// How many turns are left.
    pub left: u32,
}

/// Whether this is a copier's turn in the lane.
fn is_copy_turn(request: &Request, own: usize) -> bool
    ensures { IsTrue result ↔ (Request.CopyTurn own ≡ request.now) }
{
    match request {
        Request::CopyTurn { lane } => usize::from(*lane) == own,
        _ => false,
    }
}

/// Whether this is a cleaner's turn in the lane.
fn is_clean_turn(request: &Request, own: usize) -> bool
    ensures { IsTrue result ↔ (Request.CleanTurn own ≡ request.now) }
{
    match request {
        Request::CleanTurn { lane } => usize::from(*lane) == own,
        _ => false,
    }
}

impl Turns {
    /// Whether this is the next turn.
    pub fn asks(self, request: &Request) -> bool
        requires { 0 < self.lanes }
        ensures { IsTrue result ↔ (turn_in self.cleans (self.next % self.lanes) ≡ request.now) }
    {
        let lane = self.next as usize % self.lanes;
        if self.cleans {
            is_clean_turn(request, lane)
        } else {
            is_copy_turn(request, lane)
        }
    }

    /// The same turns without the next, of which there are two or more.
    pub fn behind_next(self) -> Turns
        requires many { 1 < self.left }
        requires counted { self.next + self.left ≤ 2 ^ 32 }
        ensures { result ≡ record self { next = self.next + 1; left = self.left - 1 } }
    {
        let Turns {
            cleans,
            lanes,
            next,
            left,
        } = self;
        Turns {
            cleans,
            lanes,
            next: next + 1,
            left: left - 1,
        }
    }
}
