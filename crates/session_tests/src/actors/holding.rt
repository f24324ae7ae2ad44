//! A gate that holds actors at points until others come to theirs.

use fc_top::gate::{Gate, Moment};
use std::alloc::{AllocError, Global};
use std::sync::atomic::{AtomicBool, Ordering};
use std::thread;

/// How often an actor that is held lets others run before it gives up.
const MOST_YIELDS: u32 = 1_000_000;

/// A point that an actor comes to: at a moment of one of its requests, which count from 0.
#[derive(Clone, Copy, PartialEq, Eq)]
pub struct Point {
    /// The actor's number.
    pub actor: u32,
    /// The request.
    pub request: u32,
    /// The moment.
    pub moment: Moment,
}

impl Point {
    /// Inside the turn of this request.
    pub fn inside(actor: u32, request: u32) -> Point {
        Point {
            actor,
            request,
            moment: Moment::Inside,
        }
    }

    /// Behind the answer to this request.
    pub fn answered(actor: u32, request: u32) -> Point {
        Point {
            actor,
            request,
            moment: Moment::Answered,
        }
    }
}

/// What came of a hold.
#[derive(Clone, Copy, Debug, PartialEq, Eq)]
pub enum Outcome {
    /// Nobody came to its point.
    Unmet,
    /// The actor went on when the other one had come.
    Released,
    /// The actor went on without that.
    GaveUp,
}

/// An actor that comes to a point is held there until another point was come to.
#[derive(Drop)]
struct Hold {
    at: Point,
    until: Point,
    came: AtomicBool,
    released: AtomicBool,
    gave_up: AtomicBool,
}

impl Hold {
    /// Holds an actor at a point until another was come to.
    fn new(at: Point, until: Point) -> Hold {
        Hold {
            at,
            until,
            came: AtomicBool::new(false),
            released: AtomicBool::new(false),
            gave_up: AtomicBool::new(false),
        }
    }

    /// What came of it.
    fn outcome(&self) -> Outcome {
        if self.released.load(Ordering::SeqCst) {
            Outcome::Released
        } else if self.gave_up.load(Ordering::SeqCst) {
            Outcome::GaveUp
        } else {
            Outcome::Unmet
        }
    }

    /// Lets others run until the point was come to, or gives up.
    fn wait(&self) {
        for _ in 0..MOST_YIELDS {
            if self.came.load(Ordering::SeqCst) {
                self.released.store(true, Ordering::SeqCst);
                return;
            }
            thread::yield_now();
        }
        self.gave_up.store(true, Ordering::SeqCst);
    }
}

/// A gate with some holds.
#[derive(Drop)]
pub struct HoldingGate {
    holds: Vec<Hold>,
}

impl HoldingGate {
    /// A gate that holds an actor at the first point of each pair until the second was come to.
    pub fn new(alloc: Global, pairs: &[(Point, Point)]) -> Result<HoldingGate, AllocError> {
        let mut holds = Vec::new(alloc);
        for pair in pairs {
            holds.push(Hold::new(pair.0, pair.1))?;
        }
        Ok(HoldingGate { holds })
    }

    /// Whether each hold had this outcome.
    pub fn all(&self, outcome: Outcome) -> bool {
        self.holds.iter().all(|hold| hold.outcome() == outcome)
    }

    /// The outcome of one of the holds, in the order in which they were given.
    pub fn outcome(&self, index: usize) -> Option<Outcome> {
        match self.holds.get(index) {
            Some(hold) => Some(hold.outcome()),
            None => None,
        }
    }
}

impl Gate for HoldingGate {
    fn reach(&self, actor: u32, request: u32, moment: Moment) {
        let here = Point {
            actor,
            request,
            moment,
        };
        for hold in &self.holds {
            if hold.until == here {
                hold.came.store(true, Ordering::SeqCst);
            }
        }
        for hold in &self.holds {
            if hold.at == here {
                hold.wait();
            }
        }
    }
}
