// One line of the input of the program node: what is asked of it. A look is its tick alone (request_told reads more).
// Promises: each line is read as specs/Requests.antt says, or refused. Leans on any_request, which reads all but the look, on
// refusal and lines.
#![tactic(auto)]

ghost use Rattle.std.specs.Prelude.{◌≡◌, IfOk};
ghost use Rattle.request.specs.Requests.{on_wish, request_of};

use refusal::Refusal;
use std::alloc::{AllocError, Global};

mod ticks;

pub use ticks::{Request, Tick};

// A line with its newline: what it asks for, or the refusal.
pub fn read_request(heap: Global, line: &[u8]) -> Result<Result<Request, Refusal>, AllocError>
    ensures { IfOk result (λ q. on_wish q ≡ request_of line.now) }
{
    any_request::read_request(heap, line)
}
