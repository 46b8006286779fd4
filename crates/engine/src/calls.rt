// The calls on an engine.
ghost use Rattle.std.specs.Prelude.{◌≡◌, false, [], length, replicate, IfOk, if◌then◌else◌, None, Ok, Err, ◌==◌, nat_le};
ghost use Rattle.diagram.specs.declared.refusals.Refusal.TheVariants.{ArityOver};
ghost use Rattle.diagram.specs.Rules.{variable};
ghost use Rattle.diagram.specs.RecordTheorems.{Answered};
ghost use Rattle.cache.specs.declared.entries.Key.{Key};
ghost use Rattle.engine.specs.Laws.{HeldWell, Remembers};
ghost use Rattle.engine.specs.Steps.{constant_step, variable_step, evaluate_step, ones_step, diamonds_step, refused_number, map_after};

use crate::counting::assignments;
use crate::engines::Engine;
use crate::states::State;
use basics::arguments::below;
use cache::caches::Cache;
use cache::tables::Table;
use diagram::edges::{Diamond, Edge};
use diagram::refusals::Refusal;
use dialect::profiles::Profile;
use std::alloc::{AllocError, Global};
use unique::tables::UniqueTable;

// The arity, which is at most 20.
fn checked_arity(arity: u32) -> Result<u8, Refusal>
    ensures { result ≡ (if nat_le arity 20 then Ok arity else Err ArityOver) }
{
    Ok(below(arity, 21, Refusal::ArityOver)? as u8)
}

impl<C: Cache + Drop> Engine<C> {
    // A new engine of a dialect: no diamonds, and nothing in its cache. Only this call can want memory.
    pub fn new(heap: Global, profile: Profile, mut cache: C) -> Result<Engine<C>, AllocError>
        ensures { IfOk result (λ e. (e.state.diamonds ≡ []) × (e.state.profile ≡ profile) × (length e.state.table ≡ C.Cache.wants cache) × ((k : Key) → C.Cache.held e.cache e.state.table k ≡ None)) }
    {
        let diamonds = UniqueTable::new(heap)?;
        let mut table = Table::new(heap, cache.places())?;
        cache.forget(&mut table);
        let state = State {
            profile,
            diamonds,
            table,
        };
        Ok(Engine { state, cache })
    }

    // Says, to whoever calls it, what is true of every engine: its dialect is lawful, its diamonds are normal, of at most 20 marks, and at most 1,024,
    // and the cache gives for each combination none or the edge that the combination answers.
    pub fn law(&self)
        ensures held { HeldWell self.now.state.profile.meaning self.now.state.diamonds }
        ensures map { Remembers self.now.state.profile.meaning self.now.state.diamonds (C.Cache.held self.now.cache self.now.state.table) }
    {}

    // The dialect of the engine.
    pub fn profile(&self) -> Profile
        ensures { result ≡ self.now.state.profile }
    {
        self.state.profile
    }

    // The diamonds that the engine holds, diamond k at place k.
    pub fn diamonds(&self) -> &[Diamond]
        ensures { result.now ≡ self.now.state.diamonds }
    {
        self.state.diamonds.as_slice()
    }

    // Forgets what the cache holds.
    pub(crate) fn forget(&mut self)
        ensures state { (self.new.state.diamonds ≡ self.old.state.diamonds) × (self.new.state.profile ≡ self.old.state.profile) }
        ensures empty { self.new.state.table ≡ replicate (length self.old.state.table) None }
        ensures map { (k : Key) → C.Cache.held self.new.cache self.new.state.table k ≡ None }
    {
        self.cache.forget(&mut self.state.table);
    }

    // The constant of `arity` marks with this value.
    pub fn constant(&self, arity: u32, value: bool) -> Result<Edge, Refusal>
        ensures answer { result ≡ (constant_step self.now.state.profile.meaning self.now.state.diamonds arity value).0 }
        ensures diamonds { self.now.state.diamonds ≡ (constant_step self.now.state.profile.meaning self.now.state.diamonds arity value).1 }
    {
        let n = checked_arity(arity)?;
        Ok(self.state.profile.meaning().constant(n, value))
    }

    // Mark i of `arity` marks: an accepted edge that means it. Edges accepted before stay accepted and mean what they meant.
    pub fn variable(&mut self, arity: u32, i: u32) -> Result<Edge, Refusal>
        ensures answer { result ≡ (variable_step self.old.state.profile.meaning self.old.state.diamonds arity i).0 }
        ensures diamonds { self.new.state.diamonds ≡ (variable_step self.old.state.profile.meaning self.old.state.diamonds arity i).1 }
        ensures right { IfOk result (λ e. Answered self.old.state.profile.meaning self.old.state.diamonds (variable arity i) self.new.state.diamonds e) }
        ensures profile { self.new.state.profile ≡ self.old.state.profile }
        ensures long { length self.new.state.table ≡ length self.old.state.table }
        ensures still { (refused_number result == 7) ≡ false → (self.new.cache ≡ self.old.cache) × (self.new.state.table ≡ self.old.state.table) }
        ensures map { (k : Key) → C.Cache.held self.new.cache self.new.state.table k ≡ map_after result (C.Cache.held self.old.cache self.old.state.table k) }
    {
        let n = checked_arity(arity)?;
        let i = below(i, n as u32, Refusal::NoVariable)?;
        let edge = self.state.insert_variable(n, i as u8);
        if edge.is_err() {
            self.forget();
        }
        edge
    }

    // The value of an edge at an assignment.
    pub fn evaluate(&self, edge: Edge, assignment: u32) -> Result<bool, Refusal>
        ensures { result ≡ evaluate_step self.now.state.profile.meaning self.now.state.diamonds edge assignment }
    {
        let n = self.state.checked(edge)?;
        let assignment = below(assignment, assignments(n), Refusal::AssignmentOver)?;
        Ok(self.state.value(edge, n, assignment))
    }

    // How many assignments give an edge the value 1.
    pub fn ones(&self, edge: Edge) -> Result<u32, Refusal>
        ensures { result ≡ ones_step self.now.state.profile.meaning self.now.state.diamonds edge }
    {
        let n = self.state.checked(edge)?;
        Ok(self.state.ones(edge, n))
    }

    // How many diamonds an edge reaches.
    pub fn diamonds_of(&self, edge: Edge) -> Result<usize, Refusal>
        ensures { result ≡ diamonds_step self.now.state.profile.meaning self.now.state.diamonds edge }
    {
        self.state.checked(edge)?;
        Ok(self.state.reached(edge))
    }
}
