// One line of the input of the program node_told: what is asked of it. A look comes with what the register shows.
// Promises: each line is read as specs/Requests.antt says, or refused. Leans on any_request, which reads all but the look, on
// refusal, lines and the types of looking.
#![tactic(auto)]

ghost use Rattle.std.specs.Prelude.{◌≡◌, IfOk};
ghost use Rattle.request_told.specs.Requests.{on_wish, request_of};

use refusal::Refusal;
use std::alloc::{AllocError, Global};

mod looks;
mod types;

pub use types::{Request, TickShown};

// A line with its newline: what it asks for, or the refusal.
pub fn read_request(heap: Global, line: &[u8]) -> Result<Result<Request, Refusal>, AllocError>
    ensures { IfOk result (λ q. on_wish q ≡ request_of line.now) }
{
    any_request::read_request(heap, line)
}
