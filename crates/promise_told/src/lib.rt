// The node, the register and time together: the world of a run, in which a look is told what the register shows, in any
// order; and what is promised of every run.
// Promises: once every account is settled the node has at least what it put in, whatever all others do (Main); what that
// rests on (NoOlder, DecidedEarly, InTime); and that in the world the node is a node by itself, and what its file says.
// Leans on looking, register and moments.
#![tactic(auto)]

ghost use Rattle.promise_told.specs.Main.{Main, NoOlder, DecidedEarly, InTime};
ghost use Rattle.promise_told.specs.Replay.{NodeAlone, FileTells};

// The main theorem: whatever happens, once every account is settled the payouts together are at least the deposits.
pub fn main_stands()
    ensures { Main }
{}

// The theorem that no older sheet counts: where a dispute has ended, the sheet is held or next.
pub fn no_older_stands()
    ensures { NoOlder }
{}

// The theorem that outs are decided early: a dispute over an out ends soon after the out's own end.
pub fn decided_early_stands()
    ensures { DecidedEarly }
{}

// The theorem that keys come through: the key of an in that the node is bound to get is shown for its account in time.
pub fn in_time_stands()
    ensures { InTime }
{}

// The theorem that the world changes the node in no other way than its own entries, looks and stops do.
pub fn node_alone_stands()
    ensures { NodeAlone }
{}

// The theorem that a node that stops in the world, and starts again, is the one that its file's records say.
pub fn file_tells_stands()
    ensures { FileTells }
{}
