// One step of a node: a request is taken, by the rules or by looking. This is what the program node_told calls for each line.
// Promises: the answer, the acts in their order and the node afterwards (specs/Steps.antt); and that a node which came about
// by a run of the world is afterwards one of that run and this event, so that what is promised of every run holds of it.
// Leans on rules, looking and the world of promise_told.
#![tactic(auto)]

ghost use Rattle.node_state.specs.Nodes.{state_of};
ghost use Rattle.step.specs.Starts.{OpenedBegins};
ghost use Rattle.step.specs.Steps.{StepDone, Continues};

use looking::look;
use node_state::Node;
use outcome::{Fault, Outside};
use refusal::Refusal;
use request_told::Request;
use rules::{call, message};

// What the request asks for is done, by its kind.
fn done<O: Outside>(
    node: &mut Node,
    outside: &mut O,
    request: &Request,
) -> Result<Result<(), Refusal>, Fault>
    ensures { StepDone request.now (state_of node.old) (O.log outside.old) result (state_of node.new) (O.log outside.new) }
{
    match request {
        Request::Message(account, told) => message(node, outside, *account, *told),
        Request::Asked(asked) => call(node, outside, *asked),
        Request::Look(told) => look(node, outside, told.tick, told.shown.as_slice()),
    }
}

// One request.
pub fn take<O: Outside>(
    node: &mut Node,
    outside: &mut O,
    request: &Request,
) -> Result<Result<(), Refusal>, Fault>
    ensures done { StepDone request.now (state_of node.old) (O.log outside.old) result (state_of node.new) (O.log outside.new) }
    ensures continues { Continues request.now (state_of node.old) (O.log outside.old) result (state_of node.new) (O.log outside.new) }
{
    done(node, outside, request)
}

// The theorem that a node that is opened with the deposits is the node at the beginning of the world.
pub fn opened_begins_stands()
    ensures { OpenedBegins }
{}
