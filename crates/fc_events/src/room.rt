//! How many slots the events of a command can make, and of how many grains.

ghost use Rattle.std.specs.Prelude.{◌≡◌, ◌^◌, ◌<◌, ◌≤◌, IfSome, IsSome, sum_by, All};
ghost use Rattle.fc_events.specs.LaneGrains.{AreNumbered, lane_grains};
ghost use Rattle.fc_events.specs.Room.{slots_made as made_by, grains_come};

use fc_base::decision::LaneEvent;

/// How many of a volume's grains the lane has.
pub(crate) fn grains_of_lane(lane: u8, lanes: u8, grains: u32) -> u32
    requires { lane < lanes }
    ensures value { result ≡ lane_grains lane lanes grains }
    ensures numbered { AreNumbered lane lanes result }
{
    let lanes = lanes as u64;
    ((grains as u64 + lanes - 1 - lane as u64) / lanes) as u32
}

/// How many slots the event can make, unless they are too many to count.
pub fn slots_made_by(event: &LaneEvent) -> Option<usize>
    ensures value { IfSome result (λ n. n ≡ made_by event.now) }
    ensures few { made_by event.now < 2 ^ 64 → IsSome result }
{
    match event {
        LaneEvent::Make { .. } | LaneEvent::Retire { .. } | LaneEvent::Detach { .. } => Some(1),
        LaneEvent::Trigger { pairs } => Some(pairs.len()),
        LaneEvent::Force { dependents, .. } => dependents.len().checked_add(1),
        _ => Some(0),
    }
}

/// How many slots the events can make, unless they are too many to count.
pub fn slots_made(events: &[LaneEvent]) -> Option<usize>
    ensures { IfSome result (λ n. n ≡ sum_by made_by events.now) }
{
    let mut sum: usize = 0;
    for event in events {
        sum = sum.checked_add(slots_made_by(event)?)?;
    }
    Some(sum)
}

/// How many grains of the lane the volume has that comes with the event.
fn grains_with(event: &LaneEvent, lane: u8, lanes: u8) -> u32
    requires { lane < lanes }
    ensures value { result ≡ grains_come (lane_grains lane lanes) event.now }
    ensures numbered { AreNumbered lane lanes result }
{
    match event {
        LaneEvent::Make { grains, .. } => grains_of_lane(lane, lanes, *grains),
        _ => 0,
    }
}

/// How many grains of the lane the largest volume has that comes with the events.
pub fn widest(events: &[LaneEvent], lane: u8, lanes: u8) -> u32
    requires { lane < lanes }
    ensures come { All (λ e. grains_come (lane_grains lane lanes) e ≤ result) events.now }
    ensures numbered { AreNumbered lane lanes result }
{
    let mut most = 0;
    for event in events {
        most = grains_with(event, lane, lanes).max(most);
    }
    most
}
