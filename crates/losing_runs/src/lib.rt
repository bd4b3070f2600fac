// Why the rules are as they are: for rules that go beyond a plain reading, a run in which a node without them loses.
// Promises: by the run's events every account is settled, and the payouts together are less than the node put in; while the
// node that keeps the rules has at least that. The checker computes each run. Leans on the specs of promise_told.
#![tactic(auto)]

ghost use Rattle.losing_runs.specs.Conduct.{SameWorld};
ghost use Rattle.losing_runs.specs.Losses.{BackUnsyncedKept, BackUnsyncedLoses, GivenUpByHeldKept, GivenUpByHeldLoses, GivenUpByLastKept, GivenUpByLastLoses, NewFileUnlookedKept, NewFileUnlookedLoses, OpeningUnseenKept, OpeningUnseenLoses, PassedLateKept, PassedLateLoses, SheetFirstKept, SheetFirstLoses, SignedInDisputeKept, SignedInDisputeLoses, SignedUnlookedKept, SignedUnlookedLoses, StartUnsyncedKept, StartUnsyncedLoses};
ghost use Rattle.losing_runs.specs.Numbers.{ShortGapLoses, ShortWindowLoses};

// The theorem that with the conduct of the rules the world is that of the promise: all else differs by the conduct alone.
pub fn same_world_stands()
    ensures { SameWorld }
{}

// A node that signs on after it sent a sheet to open a dispute loses.
pub fn opening_unseen_loses()
    ensures loses { OpeningUnseenLoses }
    ensures kept { OpeningUnseenKept }
{}

// A node that passes on an in with an out whose end is past loses.
pub fn passed_late_loses()
    ensures loses { PassedLateLoses }
    ensures kept { PassedLateKept }
{}

// A node that signs after a start before it has looked loses.
pub fn signed_unlooked_loses()
    ensures loses { SignedUnlookedLoses }
    ensures kept { SignedUnlookedKept }
{}

// It loses too where it does so only with a file that has nothing but first sheets.
pub fn new_file_unlooked_loses()
    ensures loses { NewFileUnlookedLoses }
    ensures kept { NewFileUnlookedKept }
{}

// A node that takes a signature back in an account with a dispute that it has seen loses.
pub fn signed_in_dispute_loses()
    ensures loses { SignedInDisputeLoses }
    ensures kept { SignedInDisputeKept }
{}

// A node that records the sheet before the lock passed on loses.
pub fn sheet_first_loses()
    ensures loses { SheetFirstLoses }
    ensures kept { SheetFirstKept }
{}

// A node that doesn't sync a signature back loses.
pub fn back_unsynced_loses()
    ensures loses { BackUnsyncedLoses }
    ensures kept { BackUnsyncedKept }
{}

// A node that gives up an in once it has signed the return of the out, alone, loses.
pub fn given_up_by_last_loses()
    ensures loses { GivenUpByLastLoses }
    ensures kept { GivenUpByLastKept }
{}

// A node that gives up an in while the sheet with its out is next loses.
pub fn given_up_by_held_loses()
    ensures loses { GivenUpByHeldLoses }
    ensures kept { GivenUpByHeldKept }
{}

// A node that starts, and sends what it finds in its file, without a sync loses.
pub fn start_unsynced_loses()
    ensures loses { StartUnsyncedLoses }
    ensures kept { StartUnsyncedKept }
{}

// A dispute that is open for no longer than a look and a delay lets an old sheet count.
pub fn short_window_loses()
    ensures { ShortWindowLoses }
{}

// A gap that is shorter than a window, 3 delays and 2 looks lets the key of an in come too late.
pub fn short_gap_loses()
    ensures { ShortGapLoses }
{}
