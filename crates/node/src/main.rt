// A node with the clock alone, which shows nothing to the register: reads messages, calls and ticks, one a line, and answers each by a line `ok` or `no N`.
#![tactic(auto)]

use clock::tick;
use node_folder::{Judged, OpenNode, attend};
use node_state::Node;
use outcome::Fault;
use plan::Plan;
use refusal::Refusal;
use request::{Request, Tick, read_request};
use rules::{call, message};
use std::alloc::Global;
use std::process::ExitCode;

const HELP: &str = "usage: node FOLDER

FOLDER has the owner's file `terms`; the node's own file `accounts` is made there at the first start. The node sends again
what may not have got out, writes `ready`, and reads lines from standard input to its end. For each line it writes what it
sends, and last `ok`, or `no N` where the line is turned away and nothing has changed:
  1 can't be read        2 no such account, or frozen   3 a next is under way   4 doesn't fit the held sheet
  5 the lock is used     6 not covered                  7 the end is too near   8 the key isn't there, or is
  9 an out still stands  10 too large a number

  I HEX [HEX]                  a message from the neighbour of account I, or a sheet and its signature
  pass I J LOCK AMOUNT END     pass on the in with LOCK of account I to account J
  pay I LOCK   get I LOCK   give up I LOCK
  tick T                       a look at tick T; until the first one after a start nothing is signed

docs/FORMATS.md has the lines and both files, docs/RULES.md what they mean.";

// What the rules make of one line; its acts stand in the plan.
fn judged(
    heap: Global,
    node: &mut Node,
    plan: &mut Plan,
    line: &[u8],
) -> Result<Result<(), Refusal>, Fault> {
    // a refusal is an answer, which `?` would not tell from a fault
    let request = match read_request(heap, line)? {
        Ok(request) => request,
        Err(refusal) => return Ok(Err(refusal)),
    };
    match request {
        Request::Message(account, told) => message(node, plan, account, told),
        Request::Asked(asked) => call(node, plan, asked),
        Request::Look(Tick(at)) => Ok(tick(node, at)),
    }
}

// Starts from the folder, and answers lines to the end of the input.
fn serve(rt: &HostRuntime, folder: &str) -> anyhow::Result<()> {
    let heap = rt.alloc();
    let mut open = OpenNode::start(rt, folder)?;
    open.answer_lines(rt, |node: &mut Node, plan: &mut Plan, line: &[u8]| {
        Ok(Judged {
            answer: judged(heap, node, plan, line),
            said: None,
        })
    })
}

fn main(rt: HostRuntime) -> ExitCode {
    attend(&rt, HELP, |folder: &str| serve(&rt, folder))
}
