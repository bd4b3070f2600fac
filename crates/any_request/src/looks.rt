// What a look is.
ghost use Rattle.std.specs.Prelude.{◌≡◌, List, ℕ, Result, IfOk};
ghost use Rattle.lines.specs.Lines.{words};
ghost use Rattle.refusal.specs.declared.Refusal.{Refusal};
ghost use Rattle.any_request.specs.Looks.{on_look, tick_read};

use lines::{NumberFault, number};
use refusal::Refusal;
use std::alloc::{AllocError, Global};

// A look, which is read from the words after `tick`.
pub trait Look: Drop {
    // What a look says.
    ghost Seen: { Type 0 };

    ghost seen: { Self → Seen };

    // What the words say, or why they are refused.
    ghost look_of: { List (List ℕ) → Result Seen Refusal };

    fn read(heap: Global, line: &[u8]) -> Result<Result<Self, Refusal>, AllocError>
    where
        Self: Sized,
        ensures { IfOk result (λ q. on_look seen q ≡ look_of (words line.now)) };
}

// The tick of a look: one above the largest number is refused as such.
pub fn read_tick(word: &[u8]) -> Result<u32, Refusal>
    ensures { result ≡ tick_read word.now }
{
    number(word).map_err(|fault| match fault {
        NumberFault::NotANumber => Refusal::Unreadable,
        NumberFault::TooLarge => Refusal::TooLarge,
    })
}
