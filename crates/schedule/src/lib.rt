// The four numbers that accounts go by, whether they keep the rules, and when nodes look.
// Promises: numbers are made just where the rules allow them, else the first that is too small is told; a look is due, or
// missed, as specs/Schedule.antt says; and whoever looks whenever it is due never misses one. Leans on nothing.
#![tactic(auto)]

ghost use Rattle.std.specs.Prelude.{◌≡◌, ◌+◌, is_ok, nat_le, nat_lt};
ghost use Rattle.schedule.specs.Schedule.{values_of, agreed_of, NeverMissed};

mod numbers;
mod types;

pub use numbers::Numbers;
pub use types::{Terms, TooSmall};

impl Numbers {
    // The numbers, or which of them is too small.
    pub fn new(gap: u32, window: u32, delay: u32, look: u32) -> Result<Numbers, TooSmall>
        ensures { values_of result ≡ agreed_of gap window delay look }
    {
        if look == 0 {
            return Err(TooSmall::Look);
        }
        if u64::from(window) < u64::from(look) + u64::from(delay) + 1 {
            return Err(TooSmall::Window);
        }
        if u64::from(gap) < u64::from(window) + 3 * u64::from(delay) + 3 * u64::from(look) {
            return Err(TooSmall::Gap);
        }
        let terms = Terms {
            gap,
            window,
            delay,
            look,
        };
        Ok(Numbers { terms })
    }

    pub fn values(self) -> Terms
        ensures gap { result.gap ≡ self.terms.gap }
        ensures window { result.window ≡ self.terms.window }
        ensures delay { result.delay ≡ self.terms.delay }
        ensures look { result.look ≡ self.terms.look }
    {
        self.terms
    }
}

// Is it time to look, for a node that looked last at the tick `looked`.
pub fn is_due(looked: u32, look: u32, tick: u32) -> bool
    ensures { result ≡ nat_le (looked + look) tick }
{
    u64::from(looked) + u64::from(look) <= u64::from(tick)
}

// Did the node let the tick pass at which it should have looked.
pub fn is_missed(looked: u32, look: u32, tick: u32) -> bool
    ensures { result ≡ nat_lt (looked + look) tick }
{
    u64::from(looked) + u64::from(look) < u64::from(tick)
}

// The last tick at which something that is sent to the register comes in.
pub fn comes_in_by(tick: u32, delay: u32) -> u64
    ensures { result ≡ tick + delay }
{
    u64::from(tick) + u64::from(delay)
}

// The theorem that a node which looks whenever that is due never misses a look.
pub fn never_missed_stands()
    ensures { NeverMissed }
{}
