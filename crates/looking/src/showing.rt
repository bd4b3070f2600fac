// What is shown to the register.
ghost use Rattle.std.specs.Prelude.{◌≡◌, [], ◌∷◌, map, if◌then◌else◌};
ghost use Rattle.account.specs.Accounts.{standing_of};
ghost use Rattle.node_state.specs.Nodes.{state_of};
ghost use Rattle.outcome.specs.Acts.{shown_sheet, shown_key};
ghost use Rattle.looking.specs.Looking.{shows_held, showing, showing_all};
ghost use Rattle.looking.specs.Steps.{Did};

use crate::at::LookAt;
use crate::types::Shown;
use account::Account;
use node_state::Node;
use outcome::{Fault, Outside};

fn show_keys<O: Outside>(outside: &mut O, i: usize, keys: &[[u8; 32]]) -> Result<(), Fault>
    ensures { Did (O.log outside.old) (map (shown_key i) keys.now) result (O.log outside.new) }
{
    for key in keys {
        outside.show_key(i, key)?;
    }
    Ok(())
}

impl LookAt<'_> {
    // Held, where it has to be shown.
    fn show_held<O: Outside>(&self, outside: &mut O, account: &Account) -> Result<(), Fault>
        ensures { Did (O.log outside.old) (if shows_held self.now.delay self.now.tick self.now.i self.now.shown.now (standing_of account.now) then shown_sheet self.now.i (standing_of account.now).held ∷ [] else []) result (O.log outside.new) }
    {
        if self.shows_held(account) {
            outside.show_sheet(self.i, &account.held)?;
        }
        Ok(())
    }

    // In one account: held, and then keys.
    fn show_in<O: Outside>(
        &self,
        node: &Node,
        outside: &mut O,
        account: &Account,
    ) -> Result<(), Fault>
        requires { self.now.delay ≡ (state_of node.now).terms.delay }
        ensures { Did (O.log outside.old) (showing (state_of node.now) self.now.tick self.now.shown.now self.now.i (standing_of account.now)) result (O.log outside.new) }
    {
        self.show_held(outside, account)?;
        let keys = self.keys_to_show(node, account);
        show_keys(outside, self.i, keys.as_slice())?;
        Ok(())
    }
}

// Account by account, from 0 up.
pub(crate) fn show_all<O: Outside>(
    node: &Node,
    outside: &mut O,
    tick: u32,
    shown: &[Shown],
) -> Result<(), Fault>
    ensures { Did (O.log outside.old) (showing_all (state_of node.now) tick shown.now 0 (state_of node.now).accounts) result (O.log outside.new) }
{
    let delay = node.terms().delay;
    for (i, account) in node.accounts().iter().enumerate() {
        let look = LookAt {
            i,
            tick,
            delay,
            shown,
        };
        look.show_in(node, outside, account)?;
    }
    Ok(())
}
