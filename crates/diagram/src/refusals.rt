// Why a call is refused.

// Each refusal has a number, 1 to 20, in the order in which they stand here.
#[derive(Clone, Copy, Debug, PartialEq, Eq)]
pub enum Refusal {
    // An arity over 20.
    ArityOver,
    // An edge that the engine does not accept, or a diamond number that does not stand in a file.
    NotAccepted,
    // Edges of different arities.
    AritiesDiffer,
    // No such variable.
    NoVariable,
    // A connective over 15.
    NoConnective,
    // An assignment of 2^arity or more.
    AssignmentOver,
    // More than 1,024 diamonds.
    Full,
    // A buffer that is too short.
    BufferShort,
    // A file of a wrong length.
    FileLength,
    // A file of another dialect.
    FileDialect,
    // A file of a wrong arity.
    FileArity,
    // A bad record, with the place of its first byte.
    BadRecord { place: u32 },
    // A sound file that is not what writing gives.
    FileForm,
    // A byte that means nothing in a rule line.
    UnknownByte,
    // A mark that is not below the arity.
    MarkOver,
    // A connective with too few pending edges.
    MissingOperands,
    // A 33rd pending edge.
    TooManyPending,
    // Other than one pending edge at the end.
    PendingAtEnd,
    // A bad or missing first line of a sheet.
    FirstLine,
    // More rule lines than places.
    NoPlace,
}
