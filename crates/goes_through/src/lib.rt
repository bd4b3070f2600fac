// Where neighbours are willing, a payment that the node can carry goes through.
// Promises: in every world that can be reached, the lines by which a payment is passed on, paid and got are each answered
// with Ok, and own has grown by the in and shrunk by the out; and worlds in which the node can carry a payment are reached.
// Leans on moments and promise_told.
#![tactic(auto)]

ghost use Rattle.goes_through.specs.Willing.{GoesThrough};
ghost use Rattle.goes_through.specs.Reached.{FromTheStart, IsReached};

// The theorem that a payment that the node can carry goes through.
pub fn goes_through_stands()
    ensures { GoesThrough }
{}

// The theorem that after a look and an offer the node can carry what was offered, where the deposits are enough; and what
// it holds after the whole run.
pub fn reached_stands()
    ensures world { IsReached }
    ensures whole { FromTheStart }
{}
