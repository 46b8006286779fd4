// Writes edges into places that are too short for them, and prints what each place has taken: the pieces that it had room for.
#![tactic(auto)]

use arrayvec::ArrayString;
use diagram::edges::{Edge, Target, Word};
use std::fmt::Write;

fn main(rt: HostRuntime) -> anyhow::Result<()> {
    print_all(&rt)
}

fn print_all(rt: &impl Print) -> anyhow::Result<()> {
    for (length, digits, target) in [
        (3, 0o123, Target::Zero),
        (4, 0o0012, Target::Diamond(7)),
        (0, 0, Target::One),
        (20, 1, Target::Zero),
        (21, 1, Target::Zero),
    ] {
        let edge = Edge {
            word: Word { length, digits },
            negated: false,
            target,
        };
        println!(rt; "{edge}")?;
        print_taken(rt, edge, ArrayString::<2>::new())?;
        print_taken(rt, edge, ArrayString::<3>::new())?;
        print_taken(rt, edge, ArrayString::<4>::new())?;
        print_taken(rt, edge, ArrayString::<6>::new())?;
        print_taken(rt, edge, ArrayString::<7>::new())?;
    }
    Ok(())
}

// What an empty place of N bytes, which takes a piece whole or not at all, has taken of an edge.
fn print_taken<const N: usize>(
    rt: &impl Print,
    edge: Edge,
    mut place: ArrayString<N>,
) -> anyhow::Result<()> {
    let how = match write!(place, "{edge}") {
        Ok(()) => "all",
        Err(_) => "cut short",
    };
    println!(rt; "  in {N} bytes: [{}], {how}", place.as_str())?;
    Ok(())
}
