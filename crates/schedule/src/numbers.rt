// The numbers that all accounts go by, where they keep the rules.
ghost use Rattle.std.specs.Prelude.{◌+◌, ◌*◌, ◌≤◌};

use crate::types::Terms;

// The three facts are what the promise rests on: a dispute is answered in time, and the out's dispute is over before the
// in's end.
#[derive(Clone, Copy)]
pub struct Numbers {
    pub(crate) terms: Terms,
    ghost looks: { 1 ≤ terms.look },
    ghost answered: { terms.look + terms.delay + 1 ≤ terms.window },
    ghost apart: { terms.window + 3 * terms.delay + 3 * terms.look ≤ terms.gap },
}
