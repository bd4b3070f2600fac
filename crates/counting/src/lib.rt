// The least that a node can come out with, over all choices of held or next for each account and all sets of keys shown.
// Promises: no choice and no set of keys gives less, and one choice and one set give just that (specs/Outcomes.antt).
// Leans on node_state, journal and the crates below them, and on the theorems of moments.
#![tactic(auto)]

ghost use Rattle.std.specs.Prelude.{◌≡◌, ◌*◌, ◌≤◌, map, length, take, IfOk};
ghost use Rattle.sheet.specs.Contents.{content_of};
ghost use Rattle.node_state.specs.Nodes.{state_of};
ghost use Rattle.counting.specs.Answers.{Counted, Searched, Compared};
ghost use Rattle.counting.specs.Deposits.{DepositsRead};
ghost use Rattle.counting.specs.Leasts.{lessers, least_of};
ghost use Rattle.counting.specs.Theorems.{FoundIsLeast, RunsOrderly, NotBelow, NotNegative};

use node_state::Node;
use sheet::Sheet;

mod deposits;
mod orders;
mod sums;
mod types;

pub use change::{ins_total, outs_total};
pub use types::{Count, Disorder};

// The first account whose sheets are not in order.
fn disorder(node: &Node) -> Option<usize>
    ensures { Searched (state_of node.now) result }
{
    node.accounts()
        .iter()
        .position(|account| !orders::is_orderly(account))
}

// The lesser sheet of each account; what stands past their number is of no matter. They are found once, and not again for
// each payment: that took half as long again for 16 full accounts with a next under way.
fn lesser_sheets(node: &Node) -> [Sheet; 16]
    ensures value { map content_of (take (length (state_of node.now).accounts) result) ≡ lessers (state_of node.now) }
    ensures whole { length result ≡ 16 }
{
    let mut sheets = [Sheet::first(0, 0, 0); 16];
    for i in 0..node.many() {
        let account = node.account(i);
        let sheet = *orders::lesser_sheet(&account);
        sheets[i] = sheet;
    }
    sheets
}

// What the lesser sheets come to, with each key shown where that is worse.
fn found(node: &Node) -> u64
    ensures value { result ≡ least_of (state_of node.now) }
    ensures bound { result ≤ 16 * (65 * 4294967295) }
{
    let sheets = lesser_sheets(node);
    sums::total(node, &sheets[..node.many()])
}

// The least that the node can come out with.
pub fn least(node: &Node) -> Result<u64, Disorder>
    ensures value { Counted (state_of node.now) result }
    ensures bound { IfOk result (λ n. n ≤ 16 * (65 * 4294967295)) }
{
    match disorder(node) {
        Some(account) => Err(Disorder { account }),
        None => Ok(found(node)),
    }
}

// The least beside what the node put in, by the first sheets of its file.
pub fn count(node: &Node, bytes: &[u8]) -> Result<Count, Disorder>
    ensures { Compared (state_of node.now) bytes.now result }
{
    let lowest = least(node)?;
    let put_in = deposits::deposits(node, bytes);
    Ok(Count {
        least: lowest,
        deposits: put_in,
        difference: lowest as i64 - put_in as i64,
    })
}

// The theorem that what is found is the least.
pub fn found_is_least_stands()
    ensures { FoundIsLeast }
{}

// The theorem that what is read of the first sheets is what the node put in.
pub fn deposits_stand()
    ensures { DepositsRead }
{}

// The theorems that the sheets of every node of every run are in order, and that the least is not below what was put in,
// so that the difference is not below 0.
pub fn runs_stand()
    ensures orderly { RunsOrderly }
    ensures enough { NotBelow }
    ensures difference { NotNegative }
{}
