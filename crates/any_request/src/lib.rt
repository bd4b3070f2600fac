// One line of the input of a node: what is asked of it, whatever a look is. The crates request and request_told say what a look is.
// Promises: each line is read as specs/Requests.antt says, a look by its own reading, or refused.
// Leans on refusal, sheet_bytes, lines and the types of rules.
#![tactic(auto)]

ghost use Rattle.std.specs.Prelude.{◌≡◌, IfOk};
ghost use Rattle.any_request.specs.Requests.{on_wish, request_of};

use faults::Fault;
use refusal::Refusal;
use std::alloc::{AllocError, Global};

mod calls;
mod faults;
mod looks;
mod messages;
mod types;
mod words;

pub use looks::{Look, read_tick};
pub use types::Request;

// A line with its newline: what it asks for, or the refusal.
pub fn read_request<L: Look>(
    heap: Global,
    line: &[u8],
) -> Result<Result<Request<L>, Refusal>, AllocError>
    ensures { IfOk result (λ q. on_wish L.seen q ≡ request_of L.look_of line.now) }
{
    match words::read_line(heap, line) {
        Ok(request) => Ok(Ok(request)),
        Err(Fault::Refused(refusal)) => Ok(Err(refusal)),
        Err(Fault::NoMemory(error)) => Err(error),
    }
}
