// Prints, for each built-in dialect, the edges of some constants and variables.
#![tactic(auto)]

use cache::blank::Blank;
use diagram::edges::Edge;
use dialect::builtin::built_in;
use engine::engines::Engine;
use std::fmt::Display;

fn main(rt: HostRuntime) -> anyhow::Result<()> {
    print_all(&rt)
}

fn print_all(rt: &(impl Print + AllocGlobal)) -> anyhow::Result<()> {
    for profile in built_in() {
        let engine = Engine::new(rt.alloc(), profile, Blank)?;
        Printer { rt, engine }.print_keys()?;
    }
    Ok(())
}

// An engine of one dialect, and where its keys are printed.
#[derive(Drop)]
struct Printer<'a, R> {
    rt: &'a R,
    engine: Engine<Blank>,
}

impl<R: Print> Printer<'_, R> {
    // The keys of a new engine: constants of 0 and 2 marks, and the variables of 1 to 3.
    fn print_keys(mut self) -> anyhow::Result<()> {
        self.print_constants(0)?;
        self.print_constants(2)?;
        for arity in 1..4 {
            self.print_variables(arity)?;
        }
        Ok(())
    }

    fn print_constants(&self, arity: u32) -> anyhow::Result<()> {
        for value in [false, true] {
            let edge = self.engine.constant(arity, value)?;
            let bit = u8::from(value);
            self.print_key(format_args!("constant {bit} of {arity}"), edge)?;
        }
        Ok(())
    }

    fn print_variables(&mut self, arity: u32) -> anyhow::Result<()> {
        for i in 0..arity {
            let edge = self.engine.variable(arity, i)?;
            self.print_key(format_args!("variable {i} of {arity}"), edge)?;
        }
        Ok(())
    }

    // The line of one key: the dialect, the rule, its edge, and how many diamonds the engine holds.
    fn print_key(&self, rule: impl Display + Drop, edge: Edge) -> anyhow::Result<()> {
        let code = self.engine.profile().meaning().code;
        let count = self.engine.diamonds().len();
        println!(self.rt; "dialect {code} {rule}: {edge}, {count} diamonds")?;
        Ok(())
    }
}
