// The laws of an engine's steps: each function does nothing, and its contract is the law.
ghost use Rattle.engine.specs.Laws.{InsertedRight, InsertedRefused, ConstantsInserted};
ghost use Rattle.engine.specs.Reaching.{ReachingStepped, WalksMeet};

// A rule that is inserted with an answer is answered by an accepted edge that means it, and earlier edges keep their meaning.
pub fn answers_are_right()
    ensures { InsertedRight }
{}

// What is refused is refused by 7 alone, only for want of room, and changes nothing.
pub fn refusals_change_nothing()
    ensures { InsertedRefused }
{}

// A constant that is inserted is the constant edge, and adds nothing.
pub fn constants_add_nothing()
    ensures { ConstantsInserted }
{}

// A diamond reaches itself and what the targets of its edges reach.
pub fn reaching_goes_down()
    ensures { ReachingStepped }
{}

// A walk from an accepted edge meets just the diamonds that the edge reaches, each once.
pub fn walks_meet_what_is_reached()
    ensures { WalksMeet }
{}
