// What the statements say of an account.
ghost use Rattle.std.specs.Prelude.{◌≡◌, ℕ, Bool};
ghost use Rattle.looking.specs.Looking.{any_shown, is_dispute, is_shown_for, has_dispute, has_ended, has_reached, has_below};

use crate::at::LookAt;
use crate::types::Shown;

fn is_dispute<F: Fn(u32, u32) -> bool>(statement: &Shown, i: usize, passes: &F) -> bool
    requires { F.IsAlwaysCallable passes.now }
    ensures { (test : ℕ → ℕ → Bool) → ((number until : ℕ) (r : Bool) → F.post passes.now number until r → r ≡ test number until) → result ≡ is_dispute i test statement.now }
{
    match *statement {
        Shown::Dispute {
            account,
            number,
            until,
        } => account as usize == i && passes(number, until),
        Shown::Key { .. } => false,
    }
}

fn is_shown_for(statement: &Shown, i: usize, key: &[u8; 32]) -> bool
    ensures { result ≡ is_shown_for i key.now statement.now }
{
    match *statement {
        Shown::Dispute { .. } => false,
        Shown::Key {
            account,
            key: shown,
            ..
        } => account as usize == i && shown == *key,
    }
}

impl LookAt<'_> {
    // Is there a dispute with a number and an end that pass.
    fn any_dispute<F: Fn(u32, u32) -> bool>(&self, passes: F) -> bool
        requires { F.IsAlwaysCallable passes }
        ensures { (test : ℕ → ℕ → Bool) → ((number until : ℕ) (r : Bool) → F.post passes number until r → r ≡ test number until) → result ≡ any_shown (is_dispute self.now.i test) self.now.shown.now }
    {
        self.shown
            .iter()
            .any(|statement| is_dispute(statement, self.i, &passes))
    }

    // Was the key shown.
    pub(crate) fn is_shown(&self, key: &[u8; 32]) -> bool
        ensures { result ≡ any_shown (is_shown_for self.now.i key.now) self.now.shown.now }
    {
        self.shown
            .iter()
            .any(|statement| is_shown_for(statement, self.i, key))
    }

    pub(crate) fn has_dispute(&self) -> bool
        ensures { result ≡ has_dispute self.now.i self.now.shown.now }
    {
        self.any_dispute(|_, _| true)
    }

    // One that has ended at the tick.
    pub(crate) fn has_ended(&self) -> bool
        ensures { result ≡ has_ended self.now.tick self.now.i self.now.shown.now }
    {
        self.any_dispute(|_, until| until <= self.tick)
    }

    // One that shows this number or a higher one.
    pub(crate) fn has_reached(&self, least: u32) -> bool
        ensures { result ≡ has_reached self.now.i least self.now.shown.now }
    {
        self.any_dispute(|number, _| least <= number)
    }

    // One that is open at the tick and shows a number below this.
    pub(crate) fn has_below(&self, held: u32) -> bool
        ensures { result ≡ has_below self.now.tick self.now.i held self.now.shown.now }
    {
        self.any_dispute(|number, until| self.tick < until && number < held)
    }
}
