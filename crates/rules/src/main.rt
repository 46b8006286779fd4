// Builds rules of 20 marks from their marks, and prints how many diamonds they take.
#![tactic(auto)]

use cache::slot::Slot;
use diagram::edges::Edge;
use diagram::refusals::Refusal;
use dialect::builtin::{Dialect1, Dialect5};
use dialect::profiles::Profile;
use engine::engines::Engine;

// The connectives.
const AND: u32 = 8;

const XOR: u32 = 6;

const OR: u32 = 14;

fn main(rt: HostRuntime) -> anyhow::Result<()> {
    build_all(&rt)
}

fn build_all(rt: &(impl Print + AllocGlobal)) -> anyhow::Result<()> {
    build_in_both(rt, "x0 x1 or x2 x3 or .. or x18 x19", pairs)?;
    build_in_both(rt, "x0 xor x1 xor .. xor x19", parity)?;
    Printer::new(rt, Profile::of::<Dialect5>())?.build_too_many()
}

// Builds a rule in new engines of dialects 1 and 5, and prints it.
fn build_in_both<F: Fn(&mut Engine<Slot>) -> Result<Edge, Refusal>>(
    rt: &(impl Print + AllocGlobal),
    name: &str,
    build: F,
) -> anyhow::Result<()>
    requires { F.IsAlwaysCallable build }
{
    for profile in [Profile::of::<Dialect1>(), Profile::of::<Dialect5>()] {
        let mut printer = Printer::new(rt, profile)?;
        let rule = build(&mut printer.engine)?;
        printer.print_rule(name, rule)?;
    }
    Ok(())
}

// Marks i and j together.
fn pair(engine: &mut Engine<Slot>, i: u32, j: u32) -> Result<Edge, Refusal> {
    let first = engine.variable(20, i)?;
    let second = engine.variable(20, j)?;
    Ok(engine.combine(AND, first, second)?.edge)
}

// Marks 0 and 1, or marks 2 and 3, and so on to marks 18 and 19.
fn pairs(engine: &mut Engine<Slot>) -> Result<Edge, Refusal> {
    let mut rule = engine.constant(20, false)?;
    for i in 0..10 {
        let both = pair(engine, 2 * i, 2 * i + 1)?;
        rule = engine.combine(OR, rule, both)?.edge;
    }
    Ok(rule)
}

// Whether an odd number of the marks is 1.
fn parity(engine: &mut Engine<Slot>) -> Result<Edge, Refusal> {
    let mut rule = engine.constant(20, false)?;
    for i in 0..20 {
        let mark = engine.variable(20, i)?;
        rule = engine.combine(XOR, rule, mark)?.edge;
    }
    Ok(rule)
}

// An engine in which rules are built, and where they are printed.
#[derive(Drop)]
struct Printer<'a, R> {
    rt: &'a R,
    engine: Engine<Slot>,
}

impl<'a, R: Print + AllocGlobal> Printer<'a, R> {
    // A printer of a new engine.
    fn new(rt: &'a R, profile: Profile) -> anyhow::Result<Self> {
        let engine = Engine::new(rt.alloc(), profile, Slot)?;
        Ok(Printer { rt, engine })
    }

    // Prints a rule's edge, ones and diamonds, and how many diamonds the engine holds.
    fn print_rule(&self, name: &str, edge: Edge) -> anyhow::Result<()> {
        let code = self.engine.profile().meaning().code;
        let ones = self.engine.ones(edge)?;
        let diamonds = self.engine.diamonds_of(edge)?;
        let held = self.engine.diamonds().len();
        println!(self.rt;
            "dialect {code}, {name}: {edge}, ones {ones}, {diamonds} diamonds, {held} held"
        )?;
        Ok(())
    }

    // Marks 0 and 10, xor marks 1 and 11, and so on: each further pair takes twice as many diamonds and two more, until there is no room.
    fn build_too_many(mut self) -> anyhow::Result<()> {
        let mut rule = self.engine.constant(20, false)?;
        for i in 0..10 {
            let both = pair(&mut self.engine, i, i + 10)?;
            let answer = self.engine.combine(XOR, rule, both);
            let held = self.engine.diamonds().len();
            match answer {
                Ok(combined) => {
                    rule = combined.edge;
                    let diamonds = self.engine.diamonds_of(rule)?;
                    println!(self.rt; "pairs 0 to {i}: {diamonds} diamonds, {held} held")?;
                }
                Err(refusal) => println!(self.rt; "pairs 0 to {i}: {refusal}, {held} held")?,
            }
        }
        Ok(())
    }
}
