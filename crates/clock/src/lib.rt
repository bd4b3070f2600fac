// The clock of the program node: the tick of its last look. (node_told looks by the crate looking, which takes from here the
// search for a later look, and how each account is changed.)
// Promises: a look sets the clock of every account, and one at an earlier tick is refused (specs/Clocks.antt). Leans on node_state.
#![tactic(auto)]

ghost use Rattle.std.specs.Prelude.{◌≡◌, ℕ, map, Result};
ghost use Rattle.account.specs.declared.types.Account.{Account};
ghost use Rattle.account.specs.Accounts.{Standing, standing_of};
ghost use Rattle.node_state.specs.Nodes.{NodeState, state_of, with_accounts};
ghost use Rattle.clock.specs.Clocks.{each_from, looked_at, is_later, any_later, ticked};

use account::Account;
use node_state::Node;
use refusal::Refusal;

// The account after a look at the tick.
fn looked(account: &Account, tick: u32) -> Account
    ensures { standing_of result ≡ looked_at tick (standing_of account.now) }
{
    Account {
        looked: Some(tick),
        ..*account
    }
}

// Was the last look at the account later than the tick.
fn is_later(account: &Account, tick: u32) -> bool
    ensures { result ≡ is_later (standing_of account.now).looked tick }
{
    account.looked.is_some_and(|last| tick < last)
}

// Was the last look at an account later than the tick.
pub fn any_later(node: &Node, tick: u32) -> bool
    ensures { result ≡ any_later (state_of node.now).accounts tick }
{
    node.accounts()
        .iter()
        .any(|account| is_later(account, tick))
}

// Each account is changed, by its number. The closure is lent the account: it has more than five thousand bytes, and would be
// copied again wherever it is handed on.
pub fn change_each<F: Fn(usize, &Account) -> Account>(node: &mut Node, change: F)
    requires { F.IsAlwaysCallable change }
    ensures { (meaning : ℕ → Standing → Standing) → ((i : ℕ) (a : _) (b : Account) → F.post change i a b → standing_of b ≡ meaning i (standing_of a.now)) → state_of node.new ≡ with_accounts (state_of node.old) (each_from meaning 0 (state_of node.old).accounts) }
{
    // by number, since only `put` changes an account
    for i in 0..node.many() {
        let account = node.account(i);
        let after = change(i, &account);
        node.put(i, after);
    }
}

fn look_at_all(node: &mut Node, tick: u32)
    ensures { state_of node.new ≡ with_accounts (state_of node.old) (map (looked_at tick) (state_of node.old).accounts) }
{
    change_each(node, |_, account| looked(account, tick));
}

// A look at a tick sets the clock of every account; one before the last look is refused.
pub fn tick(node: &mut Node, tick: u32) -> Result<(), Refusal>
    ensures { ◌≡◌ {A = Result (Unit {0}) Refusal × NodeState} (result, state_of node.new) (ticked (state_of node.old) tick) }
{
    if any_later(node, tick) {
        return Err(Refusal::Unreadable);
    }
    look_at_all(node, tick);
    Ok(())
}
