// A node that looks at the register: reads messages, calls and looks, one a line, and answers each by a line `ok` or `no N`.
#![tactic(auto)]

use looking::{Lateness, lateness};
use node_folder::{Judged, OpenNode, attend};
use node_state::Node;
use outcome::Fault;
use plan::Plan;
use refusal::Refusal;
use request_told::{Request, read_request};
use std::alloc::{AllocError, Global};
use std::fs::File;
use std::process::ExitCode;
use step::take;

const HELP: &str = "usage: node FOLDER

FOLDER has the owner's file `terms`; the node's own file `accounts` is made there at the first start. The node sends again
what may not have got out, writes `ready`, and reads lines from standard input to its end. For each line it writes what it
sends and shows, and last `ok`, or `no N` where the line is turned away and nothing has changed:
  1 can't be read        2 no such account, or frozen   3 a next is under way   4 doesn't fit the held sheet
  5 the lock is used     6 not covered                  7 the end is too near   8 the key isn't there, or is
  9 an out still stands  10 too large a number

  I HEX [HEX]                  a message from the neighbour of account I, or a sheet and its signature
  pass I J LOCK AMOUNT END     pass on the in with LOCK of account I to account J
  pay I LOCK   get I LOCK   give up I LOCK
  tick T WORD ..               a look at tick T; until the first one after a start nothing is signed. The words are all that
                               the register shows for the node's accounts then:
    I:NUMBER:UNTIL             in account I a dispute shows sheet NUMBER, and ends or ended at UNTIL
    I:KEY:TICK                 KEY was shown for account I at TICK

Lines out are for the neighbour of an account (`send I HEX [HEX]`) or for the register (`show I SHEET`, `key I KEY`). A look
that comes more than `look` ticks after the last, and the first after a start, is said on standard error.

docs/FORMATS.md has the lines and both files, docs/RULES.md what they mean.";

// What the rules make of a line that was read, or that can't be; its acts stand in the plan.
fn taken(
    node: &mut Node,
    plan: &mut Plan,
    read: Result<Request, Refusal>,
) -> Result<Result<(), Refusal>, Fault> {
    match read {
        Ok(request) => take(node, plan, &request),
        Err(refusal) => Ok(Err(refusal)),
    }
}

// What there is to say about a look before it is taken: whether it is late.
fn warning(
    heap: Global,
    node: &Node,
    read: &Result<Request, Refusal>,
) -> Result<Option<String>, AllocError> {
    let Ok(Request::Look(look)) = read else {
        return Ok(None);
    };
    let tick = look.tick;
    let words = match lateness(node, tick) {
        Lateness::First => format!(in heap;
            "first look since the start, at tick {tick}: when the last was is not known"
        )?,
        Lateness::InTime => return Ok(None),
        Lateness::Late { ticks } => {
            let look = node.terms().look;
            format!(in heap; "look at tick {tick} is late by {ticks}: look is {look}")?
        }
    };
    Ok(Some(words))
}

// One line; its acts stand in the plan.
fn judged(heap: Global, node: &mut Node, plan: &mut Plan, line: &[u8]) -> anyhow::Result<Judged> {
    let read = read_request(heap, line)?;
    let said = warning(heap, node, &read)?;
    let answer = taken(node, plan, read);
    Ok(Judged { answer, said })
}

// Starts from the folder, and answers lines to the end of the input.
fn serve(rt: &HostRuntime, folder: &str) -> anyhow::Result<()> {
    // The number of a standard stream that is closed goes to the next file that is opened. These take up all three, so
    // that what is printed can't get into the node's file.
    let _numbers = (
        File::open(rt, folder)?,
        File::open(rt, folder)?,
        File::open(rt, folder)?,
    );
    let heap = rt.alloc();
    let mut open = OpenNode::start(rt, folder)?;
    open.answer_lines(rt, |node: &mut Node, plan: &mut Plan, line: &[u8]| {
        judged(heap, node, plan, line)
    })
}

fn main(rt: HostRuntime) -> ExitCode {
    attend(&rt, HELP, |folder: &str| serve(&rt, folder))
}
