// A computed cache that is written outside the library, used by itself and by an engine.
#![tactic(auto)]

mod shy;

use crate::shy::Shy;
use cache::caches::Cache;
use cache::entries::{Entry, Key};
use cache::tables::Table;
use diagram::edges::{Edge, Target, Word};
use dialect::builtin::Dialect1;
use dialect::profiles::Profile;
use engine::engines::Engine;

// The connectives *and* and *xor*.
const AND: u8 = 8;

const XOR: u8 = 6;

fn main(rt: HostRuntime) -> anyhow::Result<()> {
    print_all(&rt)
}

fn print_all(rt: &(impl Print + AllocGlobal)) -> anyhow::Result<()> {
    use_cache(rt)?;
    use_engine(rt)
}

// An unmarked edge of two letters on terminal zero.
fn edge_of(digits: u64) -> Edge {
    Edge {
        negated: false,
        word: Word { length: 2, digits },
        target: Target::Zero,
    }
}

// The key of a connective and the marks a and b, which in dialect 5 are the edges `+ 10 0` and `+ 01 0`.
fn key_of(connective: u8) -> Key {
    Key {
        connective,
        left: edge_of(0o10),
        right: edge_of(0o01),
    }
}

// Notes *and*, then *xor*, which shuts the cache, then forgets.
fn use_cache(rt: &(impl Print + AllocGlobal)) -> anyhow::Result<()> {
    let mut cache = Shy::new(XOR);
    let mut table = Table::new(rt.alloc(), cache.places())?;
    println!(rt; "a table of {} places", table.size())?;
    print_cache(rt, "at first", &mut cache, &table)?;
    cache.note(&mut table, key_of(AND), edge_of(0o21));
    print_cache(rt, "and noted", &mut cache, &table)?;
    cache.note(&mut table, key_of(XOR), edge_of(0o11));
    print_cache(rt, "xor noted", &mut cache, &table)?;
    cache.forget(&mut table);
    print_cache(rt, "forgotten", &mut cache, &table)?;
    cache.note(&mut table, key_of(AND), edge_of(0o21));
    print_cache(rt, "and noted again", &mut cache, &table)
}

// What the cache finds, and what stands in its table.
fn print_cache(rt: &impl Print, when: &str, cache: &mut Shy, table: &Table) -> anyhow::Result<()> {
    match cache.find(table, key_of(AND)) {
        Some(edge) => println!(rt; "{when}: and is found, {edge}")?,
        None => println!(rt; "{when}: and is not found")?,
    }
    for (place, held) in table.as_slice().iter().enumerate() {
        if let Some(Entry { key, edge }) = held {
            println!(rt; "  place {place}: connective {}, {edge}", key.connective)?;
        }
    }
    Ok(())
}

// The marks a and b in an engine of dialect 1 with this cache, what combines them, and their values.
fn use_engine(rt: &(impl Print + AllocGlobal)) -> anyhow::Result<()> {
    let engine = Engine::new(rt.alloc(), Profile::of::<Dialect1>(), Shy::new(XOR))?;
    let mut printer = Printer { rt, engine };
    let a = printer.engine.variable(2, 0)?;
    printer.print_rule("a", a)?;
    let b = printer.engine.variable(2, 1)?;
    printer.print_rule("b", b)?;
    for (name, connective, left, right) in [
        ("a and a", AND, a, a),
        ("a and a", AND, a, a),
        ("a and b", AND, a, b),
        ("a and b", AND, a, b),
        ("a xor b", XOR, a, b),
        ("a and b", AND, a, b),
    ] {
        printer.print_combined(name, connective, left, right)?;
    }
    Ok(())
}

// An engine with this cache, and where its answers are printed.
#[derive(Drop)]
struct Printer<'a, R> {
    rt: &'a R,
    engine: Engine<Shy>,
}

impl<R: Print> Printer<'_, R> {
    // A combination, whether the cache found it, and its values.
    fn print_combined(
        &mut self,
        name: &str,
        connective: u8,
        a: Edge,
        b: Edge,
    ) -> anyhow::Result<()> {
        let combined = self.engine.combine(u32::from(connective), a, b)?;
        let how = if combined.found {
            "found"
        } else {
            "worked out"
        };
        println!(self.rt; "{name}: {how}")?;
        self.print_rule(name, combined.edge)
    }

    // An edge of two marks, how many diamonds the engine holds, and the values from assignment 0 to 4, which is one too many.
    fn print_rule(&self, name: &str, edge: Edge) -> anyhow::Result<()> {
        let count = self.engine.diamonds().len();
        println!(self.rt; "{name} is {edge}, {count} diamonds")?;
        for assignment in 0..5 {
            match self.engine.evaluate(edge, assignment) {
                Ok(value) => println!(self.rt; "  at {assignment}: {}", u8::from(value))?,
                Err(refusal) => println!(self.rt; "  at {assignment}: {refusal}")?,
            }
        }
        Ok(())
    }
}
