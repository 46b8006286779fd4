// What may be asked of a refusal.
ghost use Rattle.std.specs.Prelude.{◌≡◌, ◌↔◌, IsTrue};
ghost use Rattle.diagram.specs.Refusals.{refusal_number, refusal_values, first_value, same_refusal};

use crate::refusals::Refusal;

impl Refusal {
    // The number that the refusal is reported by; the enum cannot number a case that carries a value.
    pub fn number(self) -> u8
        ensures { result ≡ refusal_number self }
    {
        match self {
            Refusal::ArityOver => 1,
            Refusal::NotAccepted => 2,
            Refusal::AritiesDiffer => 3,
            Refusal::NoVariable => 4,
            Refusal::NoConnective => 5,
            Refusal::AssignmentOver => 6,
            Refusal::Full => 7,
            Refusal::BufferShort => 8,
            Refusal::FileLength => 9,
            Refusal::FileDialect => 10,
            Refusal::FileArity => 11,
            Refusal::BadRecord { .. } => 12,
            Refusal::FileForm => 13,
            Refusal::UnknownByte => 14,
            Refusal::MarkOver => 15,
            Refusal::MissingOperands => 16,
            Refusal::TooManyPending => 17,
            Refusal::PendingAtEnd => 18,
            Refusal::FirstLine => 19,
            Refusal::NoPlace => 20,
        }
    }

    // The place in a file that a bad record carries.
    pub fn place(self) -> Option<u32>
        ensures { result ≡ first_value (refusal_values self) }
    {
        match self {
            Refusal::BadRecord { place } => Some(place),
            _ => None,
        }
    }

    // Whether the two refusals are the same: `==`, promised to be the test in specs/ and to hold of nothing else.
    pub fn same(self, other: Refusal) -> bool
        ensures by_parts { result ≡ same_refusal self other }
        ensures same { IsTrue result ↔ (self ≡ other) }
    {
        self == other
    }
}
