// Every run can go on to where every account is settled, by looks, arrivals and ticks alone; and the node then has at least
// what it put in. No code but the theorems' name.
// Promises: what specs/Settling.antt states. Leans on promise_told.
#![tactic(auto)]

ghost use Rattle.settling.specs.Settling.{SettlesAlone, Settles, PaidAlone};

// The theorems that the node and time alone settle every account: by which tick, from wherever there is time left, and that
// the payouts together are then at least what the node put in.
pub fn settles_alone_stands()
    ensures alone { SettlesAlone }
    ensures room { Settles }
    ensures paid { PaidAlone }
{}
