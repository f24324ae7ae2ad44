//! What an actor is to do, request after request.

ghost use Rattle.std.specs.Prelude.{◌≡◌, ℕ, ◌<◌, List, length, OnOk};
ghost use mathlib.Core.Option.{some};
ghost use lib.ListN.{get_elem?};
ghost use Rattle.fc_tasks.specs.declared.script.Needs.{Needs};
ghost use Rattle.fc_tasks.specs.Tasks.{AllFit, AllLead, ArePartsOf, IsPartOf, IsThere, IsTold, PartLeads};

use fc_base::outcome::NoMemory;
use fc_yard::part::Part;

/// What the next request of a script needs of the yard.
#[derive(Clone, Copy, PartialEq, Eq)]
pub enum Needs {
    /// The part at this place.
    Part(usize),
    /// All parts.
    All,
    /// Nothing: there is no request left.
    Nothing,
}

/// The requests of an actor, of which those that were done are gone.
pub trait Script<W, E, P: Part<W, E>>: Send + Drop {
    /// What the next request needs.
    ghost needed: { Self → Needs };

    /// The requests can be done in a yard that was opened with these parts and has this limit.
    ghost suits: { Self → List P → ℕ → Type 0 };

    /// The part has room for the next request.
    ghost has_room: { Self → P → Type 0 };

    /// The entry answers the next request, and this is left then.
    ghost goes: { Self → E → Self → Type 0 };

    /// How many requests are left, at most.
    ghost most: { Self → ℕ };

    /// What the next request needs.
    fn needs(&self) -> Needs
        requires { (openings : List P) × (limit : ℕ) × suits self.now openings limit }
        ensures needed { result ≡ needed self.now }
        ensures there { (openings : List P) (limit : ℕ) →
            suits self.now openings limit → IsThere result openings };

    /// The number of the actor, for the gate.
    fn actor(&self) -> u32;

    /// Makes room in the part that the next request needs, so that no move of the request takes memory. The part keeps its
    /// share of whatever it had one of.
    fn make_room(&self, part: &mut P) -> Result<(), NoMemory>
        ensures ok { OnOk result (has_room self.now part.new) }
        ensures stays { (w : W) (p : ℕ) (x0 : P) →
            P.fits x0 w p part.old → P.fits x0 w p part.new };

    /// Does the next request, which needs one part. No move of it takes memory; what it answers may, and then it answers that
    /// memory was missing.
    ///
    /// Whatever is told then of which the part has its share, the entry leads from it to what comes next, of which the part as
    /// it is then has its share, and all others keep theirs.
    fn act(&mut self, part: &mut P) -> E
        requires can { (p : ℕ) × (needed self.old ≡ Needs.Part p)
            × (openings : List P) × (limit : ℕ) × suits self.old openings limit
            × IsPartOf P.fits P.sound P.count P.steps openings limit p part.old }
        requires room { has_room self.old part.old }
        ensures leads { (p : ℕ) (openings : List P) (first limit : ℕ) (w0 w : W) (opening : P) →
            needed self.old ≡ Needs.Part p → suits self.old openings limit →
            IsTold P.fits P.sound P.count P.steps openings first limit w0 w →
            get_elem? openings p ≡ some opening → P.fits opening w p part.old →
            PartLeads P.fits P.sound P.count P.steps w0 w p opening part.new result }
        ensures goes { goes self.old result self.new }
        ensures suits { (openings : List P) (limit : ℕ) →
            suits self.old openings limit → suits self.new openings limit }
        ensures fewer { most self.new < most self.old };

    /// Does the next request, which needs all parts. No move of it takes memory; what it answers may, and then it answers that
    /// memory was missing.
    fn act_over(&mut self, parts: &mut Vec<P>) -> E
        requires can { (needed self.old ≡ Needs.All)
            × (openings : List P) × (limit : ℕ) × suits self.old openings limit
            × ArePartsOf P.fits P.sound P.count P.steps openings limit parts.old.items }
        ensures leads { (openings : List P) (first limit : ℕ) (w0 w : W) →
            needed self.old ≡ Needs.All → suits self.old openings limit →
            IsTold P.fits P.sound P.count P.steps openings first limit w0 w →
            length parts.old.items ≡ length openings →
            AllFit P.fits P.sound P.count P.steps openings w parts.old.items →
            AllLead P.fits P.sound P.count P.steps openings w0 w parts.new.items result }
        ensures long { length parts.new.items ≡ length parts.old.items }
        ensures goes { goes self.old result self.new }
        ensures suits { (openings : List P) (limit : ℕ) →
            suits self.old openings limit → suits self.new openings limit }
        ensures fewer { most self.new < most self.old };
}
