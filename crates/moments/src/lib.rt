// Theorems about every run of a node: messages, calls, looks, and stops, also within a call. No code but their names.
// Promises: what specs/Moments.antt, Moves.antt, Exactly.antt and Records.antt state holds after every list of events,
// from any deposits. Runs are made of what the contracts of rules cite. Leans on the theorems of change and proposal.
#![tactic(auto)]

ghost use Rattle.moments.specs.Exactly.{Exactly};
ghost use Rattle.moments.specs.Example.{GoesThroughOnce};
ghost use Rattle.moments.specs.Moments.{NeverLess, NoLockTwice, NotAgain, OwnNumber, PaidKnown, PassedOnPays, PassedOnce, TotalKept, TwoAtMost};
ghost use Rattle.moments.specs.Moves.{RunsAreMoves};
ghost use Rattle.moments.specs.Records.{CutOff, StandsBy};
ghost use Rattle.moments.specs.Refused.{RefusedUnchanged};

// The theorem that at most two sheets of an account may count, the held one and the next after it,
// and that they have the account's own number.
pub fn two_at_most_stands()
    ensures two { TwoAtMost }
    ensures place { OwnNumber }
{}

// The theorem that a lock is passed on once, ever.
pub fn passed_once_stands()
    ensures stays { PassedOnce }
    ensures refused { NotAgain }
{}

// The theorem that no lock stands twice, and that an out ends before its in by the gap and is no more than it.
pub fn no_lock_twice_stands()
    ensures { NoLockTwice }
{}

// The theorem that each sheet that may count has the account's deposits.
pub fn total_kept_stands()
    ensures { TotalKept }
{}

// The theorem that the node has at least what it put in, whichever sheets count and whichever keys are shown.
pub fn never_less_stands()
    ensures plain { NeverLess }
    ensures harder { PassedOnPays }
    ensures known { PaidKnown }
{}

// The theorem that the node signs just what it may sign.
pub fn exactly_stands()
    ensures { Exactly }
{}

// The theorem that after a stop the node is what its records say, and what a stop within an entry leaves.
pub fn replay_stands()
    ensures records { StandsBy }
    ensures within { CutOff }
{}

// The theorem that every run is made of the moves of specs/Moves.antt.
pub fn moves_stand()
    ensures { RunsAreMoves }
{}

// The theorem that there is such a run: in one, a payment goes through.
pub fn example_stands()
    ensures { GoesThroughOnce }
{}

// The theorem that what is refused, by whatever number, does nothing and changes nothing.
pub fn refused_unchanged_stands()
    ensures { RefusedUnchanged }
{}
