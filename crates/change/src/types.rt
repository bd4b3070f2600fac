// The six changes.

// What is done to the held sheet to get the next. The payment that is added or taken off stands beside it;
// of one that is taken off only the lock counts.
#[derive(Clone, Copy, PartialEq, Eq, Debug)]
pub enum Change {
    // an in is added, out of the neighbour's own
    Offered,
    // an out is added, out of own, for an in of another account
    PassingOn,
    // an out is taken off, to the neighbour's own: its key is there
    Paying,
    // an in is taken off, to own: its key is there
    Getting,
    // an out is taken off, back to own
    Returned,
    // an in is taken off, back to the neighbour's own
    GivingUp,
}
