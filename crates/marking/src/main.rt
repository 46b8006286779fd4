// Marks the engine's answers against keys that are known beforehand, with each of the two caches, and prints for each whether it agrees.
#![tactic(auto)]

use cache::blank::Blank;
use cache::caches::Cache;
use cache::slot::Slot;
use diagram::edges::{Edge, Target, Word};
use diagram::refusals::Refusal;
use dialect::builtin::{Dialect3, Dialect5, built_in};
use dialect::profiles::Profile;
use engine::engines::Engine;
use std::fmt::Display;

// The connectives.
const AND: u32 = 8;

const XOR: u32 = 6;

const OR: u32 = 14;

fn main(rt: HostRuntime) -> anyhow::Result<()> {
    mark_all(&rt)
}

fn mark_all(rt: &(impl Print + AllocGlobal)) -> anyhow::Result<()> {
    mark_with(rt, "blank", Blank)?;
    mark_with(rt, "slot", Slot)?;
    println!(rt; "refusals")?;
    Marker::new(rt, Profile::of::<Dialect5>(), Slot)?.mark_bounds()?;
    Marker::new(rt, Profile::of::<Dialect5>(), Slot)?.mark_refusals()
}

// How many diamonds *a and c, or not a and b* takes in each of the built-in dialects.
const COUNTS: [usize; 5] = [3, 3, 3, 1, 1];

// Marks what an engine with this cache answers.
fn mark_with<C: Cache + Copy>(
    rt: &(impl Print + AllocGlobal),
    name: &str,
    cache: C,
) -> anyhow::Result<()> {
    println!(rt; "with the {name} cache")?;
    Marker::new(rt, Profile::of::<Dialect5>(), cache)?.mark_marks()?;
    Marker::new(rt, Profile::of::<Dialect5>(), cache)?.mark_connectives()?;
    Marker::new(rt, Profile::of::<Dialect3>(), cache)?.mark_not()?;
    for (profile, expected) in built_in().into_iter().zip(COUNTS) {
        Marker::new(rt, profile, cache)?.mark_chosen(expected)?;
    }
    Ok(())
}

// An edge of these letters to a terminal.
fn key(negated: bool, length: u8, digits: u64, target: Target) -> Edge {
    Edge {
        negated,
        word: Word { length, digits },
        target,
    }
}

// Whether an answer is as it should be.
fn verdict(agrees: bool) -> &'static str {
    if agrees { "agrees" } else { "differs" }
}

// Prints the answer, or the number of the refusal.
fn tell<T: Display + Drop>(
    rt: &impl Print,
    name: &str,
    answer: Result<T, Refusal>,
) -> anyhow::Result<()> {
    match answer {
        Ok(value) => println!(rt; "  {name}: {value}")?,
        Err(refusal) => println!(rt; "  {name}: {refusal}")?,
    }
    Ok(())
}

// An engine whose answers are marked, and where the marks are printed.
#[derive(Drop)]
struct Marker<'a, R, C> {
    rt: &'a R,
    engine: Engine<C>,
}

impl<'a, R: Print + AllocGlobal, C: Cache + Drop> Marker<'a, R, C> {
    // A marker of a new engine.
    fn new(rt: &'a R, profile: Profile, cache: C) -> anyhow::Result<Self> {
        let engine = Engine::new(rt.alloc(), profile, cache)?;
        Ok(Marker { rt, engine })
    }

    // Marks one edge and its ones.
    fn mark(
        &self,
        name: &str,
        edge: Edge,
        expected: Edge,
        expected_ones: u32,
    ) -> anyhow::Result<()> {
        let ones = self.engine.ones(edge)?;
        let verdict = verdict(edge == expected && ones == expected_ones);
        println!(self.rt; "  {name}: {edge}, ones {ones}: {verdict}")?;
        Ok(())
    }

    // Dialect 5: constants, a mark and its negation.
    fn mark_marks(mut self) -> anyhow::Result<()> {
        let one = self.engine.constant(0, true)?;
        self.mark("1 of no mark", one, key(true, 0, 0, Target::Zero), 1)?;
        let one = self.engine.constant(2, true)?;
        self.mark("1 of two marks", one, key(true, 2, 0, Target::Zero), 4)?;
        let a = self.engine.variable(2, 0)?;
        self.mark("a", a, key(false, 2, 0o10, Target::Zero), 2)?;
        let not_a = self.engine.negate(a)?;
        self.mark("not a", not_a, key(true, 2, 0o10, Target::Zero), 2)
    }

    // Dialect 5: connectives of two marks.
    fn mark_connectives(mut self) -> anyhow::Result<()> {
        let a = self.engine.variable(2, 0)?;
        let not_a = self.engine.negate(a)?;
        let b = self.engine.variable(2, 1)?;
        for (name, connective, left, word, ones) in [
            ("a and b", AND, a, 0o21, 1),
            ("a xor b", XOR, a, 0o11, 2),
            ("a or b", OR, a, 0o51, 3),
            ("not a, or b", OR, not_a, 0o31, 3),
        ] {
            let edge = self.engine.combine(connective, left, b)?.edge;
            self.mark(name, edge, key(false, 2, word, Target::Zero), ones)?;
        }
        Ok(())
    }

    // Dialect 3: the negation of the one mark.
    fn mark_not(mut self) -> anyhow::Result<()> {
        let a = self.engine.variable(1, 0)?;
        let not_a = self.engine.negate(a)?;
        let expected = key(false, 1, 0o4, Target::One);
        self.mark("dialect 3, not a", not_a, expected, 1)
    }

    // a and c, or not a and b: how many diamonds it reaches.
    fn mark_chosen(mut self, expected: usize) -> anyhow::Result<()> {
        let a = self.engine.variable(3, 0)?;
        let b = self.engine.variable(3, 1)?;
        let c = self.engine.variable(3, 2)?;
        let with_a = self.engine.combine(AND, a, c)?.edge;
        let not_a = self.engine.negate(a)?;
        let without_a = self.engine.combine(AND, not_a, b)?.edge;
        let chosen = self.engine.combine(OR, with_a, without_a)?.edge;
        let diamonds = self.engine.diamonds_of(chosen)?;
        let ones = self.engine.ones(chosen)?;
        let verdict = verdict(diamonds == expected && ones == 4);
        let code = self.engine.profile().meaning().code;
        println!(self.rt;
            "  dialect {code}, a and c, or not a and b: {diamonds} diamonds, ones {ones}: {verdict}"
        )?;
        Ok(())
    }

    // The bounds: what is just accepted, and what is just refused.
    fn mark_bounds(mut self) -> anyhow::Result<()> {
        let rt = self.rt;
        tell(rt, "constant 1 of arity 20", self.engine.constant(20, true))?;
        tell(rt, "constant 1 of arity 21", self.engine.constant(21, true))?;
        tell(rt, "variable 19 of arity 20", self.engine.variable(20, 19))?;
        tell(rt, "variable 20 of arity 20", self.engine.variable(20, 20))?;
        let a = self.engine.variable(2, 0)?;
        for (name, assignment) in [
            ("a of arity 2 at assignment 3", 3),
            ("a of arity 2 at assignment 4", 4),
        ] {
            let answer = self.engine.evaluate(a, assignment);
            tell(rt, name, answer.map(u8::from))?;
        }
        Ok(())
    }

    // Combinations that are refused for their arguments, and the negation of an edge that is not accepted.
    fn mark_refusals(mut self) -> anyhow::Result<()> {
        let a = self.engine.variable(2, 0)?;
        let b = self.engine.variable(3, 1)?;
        let foreign = key(false, 1, 0, Target::One);
        for (name, connective, left, right) in [
            ("connective 15", 15, a, a),
            ("connective 16", 16, foreign, b),
            ("an edge to terminal one", AND, foreign, b),
            ("arities 2 and 3", AND, a, b),
        ] {
            let answer = self.engine.combine(connective, left, right);
            tell(self.rt, name, answer.map(|combined| combined.edge))?;
        }
        tell(
            self.rt,
            "the negation of an edge to terminal one",
            self.engine.negate(foreign),
        )
    }
}
