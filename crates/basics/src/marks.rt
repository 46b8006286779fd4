// Marks on the diamonds that were reached.
ghost use Rattle.std.specs.Prelude.{◌≡◌, ◌+◌};
ghost use Rattle.diagram.specs.Records.{target_of};
ghost use Rattle.basics.specs.Marks.{marked, newly};

use diagram::edges::{Diamond, Target};
use std::mem;

// Marks the target, if it is a diamond, and says how many marks that sets anew. By index: after `get_mut` on a slice the check knows its length alone.
pub fn mark(marks: &mut [bool], target: Target) -> usize
    ensures marks { marks.new ≡ marked marks.old (target_of target) }
    ensures new { result ≡ newly marks.old (target_of target) }
{
    match target {
        Target::Diamond(k) if (k as usize) < marks.len() => {
            usize::from(!mem::replace(&mut marks[k as usize], true))
        }
        _ => 0,
    }
}

// Marks the targets of a diamond's edges, and says how many marks that sets anew.
pub fn mark_edges(marks: &mut [bool], diamond: Diamond) -> usize
    ensures marks { marks.new ≡ marked (marked marks.old (target_of diamond.low.target)) (target_of diamond.high.target) }
    ensures new { result ≡ newly marks.old (target_of diamond.low.target) + newly (marked marks.old (target_of diamond.low.target)) (target_of diamond.high.target) }
{
    mark(marks, diamond.low.target) + mark(marks, diamond.high.target)
}
