//! An actor, and what it does of its script.

ghost use Rattle.std.specs.Prelude.{◌≡◌, ◌<◌, ◌≤◌, ◌^◌, OnOk, OnErr, IfOk, IfErr, [], length};
ghost use Rattle.fc_yard.specs.Views.{HoldsNone};
ghost use Rattle.fc_yard.specs.Calls.{IsPassOf};
ghost use Rattle.std.specs.Bool.{OnTrue};
ghost use Rattle.fc_tasks.specs.Acting.{HasAnswered, HasDone, HasWent, IsActing, IsFree, IsOpened, IsSamePass, StepEnds, Stepped, Stopped};

use crate::gate::{Gate, Moment};
use crate::script::{Needs, Script};
use crate::turns::{put_all, take_all};
use fc_base::outcome::NoMemory;
use fc_entry::stop::Stop;
use fc_yard::part::Part;
use fc_yard::pass::Pass;
use fc_yard::yard::Yard;
use std::alloc::Global;
use std::sync::Wait;

/// An actor at work.
#[derive(Drop)]
pub struct Actor<P, E, S> {
    /// Its pass of the yard.
    pub pass: Pass<P, E>,
    /// What it has still to do.
    pub script: S,
    /// What it did, by the numbers that it drew, which rise.
    pub made: Vec<(u64, E)>,
}

/// What an actor did.
#[derive(Drop)]
pub struct Answered<E, S> {
    /// Its entries, by their numbers, which rise.
    pub made: Vec<(u64, E)>,
    /// What is left of its script.
    pub left: S,
    /// Why it stopped before the script's end, if it did.
    pub stop: Option<Stop>,
}

impl<P, E: Drop, S> Actor<P, E, S> {
    /// Comes to the gate with the request under way, whose entry isn't among those made yet.
    fn come_to<W, G: Gate>(&self, gate: &G, moment: Moment)
    where
        P: Part<W, E>,
        S: Script<W, E, P>,
    {
        let request = self.made.len().min(u32::MAX as usize) as u32;
        gate.reach(self.script.actor(), request, moment);
    }

    /// Does the next request of the script, which needs this part. `LogFull` where the yard has no ticket left, and `NoMemory`
    /// where none is had for the entry or for room in the part: nothing was done then.
    fn do_in<R: Wait, W, G: Gate>(
        &mut self,
        rt: &R,
        alloc: Global,
        yard: &Yard<W, E, P>,
        gate: &G,
        part: usize,
    ) -> Result<(), Stop>
    where
        P: Part<W, E>,
        S: Script<W, E, P>,
        requires acting { IsActing S.needed S.suits S.goes yard.now self.old }
        requires opened { IsOpened P.fits P.sound P.count P.steps self.old.pass.view }
        requires part { (S.needed self.old.script ≡ Needs.Part part) × (part < yard.now.parts) }
        ensures acting { IsActing S.needed S.suits S.goes yard.now self.new }
        ensures same { IsSamePass self.old.pass.view self.new.pass.view }
        ensures done { OnOk result (HasDone S.needed S.suits S.goes self.old self.new) }
        ensures not { IfErr result
            (λ stop. StepEnds S.needed S.suits S.goes stop self.old self.new) }
        ensures fewer { OnOk result (S.most self.new.script < S.most self.old.script) }
    {
        if self.made.reserve(1).is_err() {
            return Err(Stop::NoMemory);
        }
        let mut value = yard.take(rt, &mut self.pass, part);
        if self.script.make_room(&mut value).is_err() {
            yard.put(&mut self.pass, part, value);
            return Err(Stop::NoMemory);
        }
        if !yard.ticket(&mut self.pass) {
            yard.put(&mut self.pass, part, value);
            return Err(Stop::LogFull);
        }
        let entry = self.script.act(&mut value);
        let number = yard.draw(&mut self.pass, part, &value, &entry);
        self.come_to::<W, G>(gate, Moment::Inside);
        yard.put(&mut self.pass, part, value);
        self.come_to::<W, G>(gate, Moment::Answered);
        self.made.push_reserved((number, entry));
        Ok(())
    }

    /// Does the next request of the script, which needs all parts. `LogFull` where the yard has no ticket left, and `NoMemory`
    /// where none is had for the entry or for a list of the parts: nothing was done then.
    fn do_over<R: Wait, W, G: Gate>(
        &mut self,
        rt: &R,
        alloc: Global,
        yard: &Yard<W, E, P>,
        gate: &G,
    ) -> Result<(), Stop>
    where
        P: Part<W, E>,
        S: Script<W, E, P>,
        requires acting { IsActing S.needed S.suits S.goes yard.now self.old }
        requires opened { IsOpened P.fits P.sound P.count P.steps self.old.pass.view }
        requires all { (S.needed self.old.script ≡ Needs.All) × (0 < yard.now.parts) }
        ensures acting { IsActing S.needed S.suits S.goes yard.now self.new }
        ensures same { IsSamePass self.old.pass.view self.new.pass.view }
        ensures done { OnOk result (HasDone S.needed S.suits S.goes self.old self.new) }
        ensures not { IfErr result
            (λ stop. StepEnds S.needed S.suits S.goes stop self.old self.new) }
        ensures fewer { OnOk result (S.most self.new.script < S.most self.old.script) }
    {
        if self.made.reserve(1).is_err() {
            return Err(Stop::NoMemory);
        }
        let Ok(mut parts) = Vec::with_capacity(alloc, yard.parts()) else {
            return Err(Stop::NoMemory);
        };
        take_all(rt, yard, &mut self.pass, &mut parts);
        if !yard.ticket(&mut self.pass) {
            put_all(yard, &mut self.pass, parts);
            return Err(Stop::LogFull);
        }
        let entry = self.script.act_over(&mut parts);
        let number = yard.draw_all(&mut self.pass, &parts, &entry);
        self.come_to::<W, G>(gate, Moment::Inside);
        put_all(yard, &mut self.pass, parts);
        self.come_to::<W, G>(gate, Moment::Answered);
        self.made.push_reserved((number, entry));
        Ok(())
    }

    /// Does the next request, if there is one. Whether there was.
    fn step<R: Wait, W, G: Gate>(
        &mut self,
        rt: &R,
        alloc: Global,
        yard: &Yard<W, E, P>,
        gate: &G,
    ) -> Result<bool, Stop>
    where
        P: Part<W, E>,
        S: Script<W, E, P>,
        requires acting { IsActing S.needed S.suits S.goes yard.now self.old }
        requires opened { IsOpened P.fits P.sound P.count P.steps self.old.pass.view }
        ensures acting { IsActing S.needed S.suits S.goes yard.now self.new }
        ensures same { IsSamePass self.old.pass.view self.new.pass.view }
        ensures stepped { Stepped S.needed S.suits S.goes result self.old self.new }
        ensures fewer { IfOk result
            (λ more. OnTrue more (S.most self.new.script < S.most self.old.script)) }
    {
        match self.script.needs() {
            Needs::Part(part) => match self.do_in(rt, alloc, yard, gate, part) {
                Ok(()) => Ok(true),
                Err(stop) => Err(stop),
            },
            Needs::All => match self.do_over(rt, alloc, yard, gate) {
                Ok(()) => Ok(true),
                Err(stop) => Err(stop),
            },
            Needs::Nothing => Ok(false),
        }
    }

    /// Does one request after another, to the script's end, or until it stops for this.
    fn run<R: Wait, W, G: Gate>(
        &mut self,
        rt: &R,
        alloc: Global,
        yard: &Yard<W, E, P>,
        gate: &G,
    ) -> Option<Stop>
    where
        P: Part<W, E>,
        S: Script<W, E, P>,
        requires acting { IsActing S.needed S.suits S.goes yard.now self.old }
        requires opened { IsOpened P.fits P.sound P.count P.steps self.old.pass.view }
        ensures acting { IsActing S.needed S.suits S.goes yard.now self.new }
        ensures same { IsSamePass self.old.pass.view self.new.pass.view }
        ensures went { HasWent S.needed S.suits S.goes self.old self.new }
        ensures stopped { Stopped S.needed S.suits S.goes
            self.new.pass.view.limit self.new.pass.view.low self.new.script result }
    {
        loop {
            match self.step(rt, alloc, yard, gate) {
                Ok(true) => {}
                Ok(false) => return None,
                Err(stop) => return Some(stop),
            }
        }
    }
}

/// Does a script in a yard, with a pass that drew no number yet.
///
/// What it did stands in its list, by the numbers that were drawn for it, which rise. It stopped before the end of the script
/// where the yard has no ticket left (`LogFull`), or where memory was wanted.
pub fn act<R: Wait, W, E: Drop, P: Part<W, E>, S: Script<W, E, P>, G: Gate>(
    rt: &R,
    alloc: Global,
    yard: &Yard<W, E, P>,
    gate: &G,
    pass: Pass<P, E>,
    script: S,
) -> (Pass<P, E>, Answered<E, S>)
    requires free { IsFree yard.now pass }
    requires opened { IsOpened P.fits P.sound P.count P.steps pass.view }
    requires suits { S.suits script pass.view.openings pass.view.limit }
    requires fresh { pass.view.made ≡ [] }
    ensures free { IsFree yard.now result.0 }
    ensures same { IsSamePass pass.view result.0.view }
    ensures made { result.0.view.made ≡ result.1.made.items }
    ensures answered { HasAnswered S.needed S.suits S.goes
        pass.view.limit result.0.view.low script result.1 }
{
    let mut actor = Actor {
        pass,
        script,
        made: Vec::new(alloc),
    };
    let stop = actor.run(rt, alloc, yard, gate);
    let Actor { pass, script, made } = actor;
    (
        pass,
        Answered {
            made,
            left: script,
            stop,
        },
    )
}
