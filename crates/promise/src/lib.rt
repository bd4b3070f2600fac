// The node, the register and time together: the world of a run, and what is promised of every run. A look is told the
// register's own list. Promises: in every run of the world the node is that of a run by itself; and Main follows from three
// statements about time. These three stand in specs/Main.antt and are not proved for this world; promise_told proves them,
// and Main, for a world in which looks are told the same in any order. Leans on looking, register and moments.
#![tactic(auto)]

ghost use Rattle.promise.specs.Main.{MainFollows};
ghost use Rattle.promise.specs.Replay.{NodeAlone};

use moments::{never_less_stands, no_lock_twice_stands};

// The theorem that the world changes the node in no other way than its own entries, looks and stops do.
pub fn node_alone_stands()
    ensures { NodeAlone }
{}

// The theorem that the promise follows from: no older sheet counts, outs are decided early, keys come through.
pub fn main_follows_stands()
    ensures { MainFollows }
{
    never_less_stands();
    no_lock_twice_stands();
}
