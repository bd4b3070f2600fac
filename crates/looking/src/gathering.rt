// Which keys are shown in an account, each once.
ghost use Rattle.std.specs.Prelude.{◌≡◌, ◌+◌, ◌<◌, ◌≤◌, length};
ghost use Rattle.arrayvec.specs.ArrayVec.{array_vec_len};
ghost use Rattle.account.specs.Accounts.{standing_of};
ghost use Rattle.node_state.specs.Nodes.{state_of};
ghost use Rattle.looking.specs.Looking.{is_among, wanted, near_below, keys_to_show};
ghost use Rattle.looking.specs.Steps.{with_one, gathered, wanted_for};
ghost use Rattle.std.specs.Prelude.{Some};

use crate::at::LookAt;
use account::Account;
use arrayvec::ArrayVec;
use node_state::Node;
use schedule::Terms;
use sheet::Payment;

// At most one for each in of held and of next.
pub(crate) type Keys = ArrayVec<[u8; 32], 64>;

fn is_among(keys: &[[u8; 32]], key: &[u8; 32]) -> bool
    ensures { result ≡ is_among key.now keys.now }
{
    keys.iter().any(|other| other == key)
}

// One more at the end, unless it is there.
fn add_once(keys: &mut Keys, key: [u8; 32])
    requires { array_vec_len keys.old < 64 }
    ensures value { keys.new.items ≡ with_one keys.old.items (Some key) }
    ensures count { array_vec_len keys.new ≤ array_vec_len keys.old + 1 }
{
    if !is_among(keys.as_slice(), &key) {
        keys.push(key);
    }
}

// An end below this is near. The sum may pass the limit of a tick.
fn near_below(terms: Terms, tick: u32) -> u64
    ensures { result ≡ near_below terms tick }
{
    u64::from(tick) + 2 * u64::from(terms.look) + 2 * u64::from(terms.delay)
}

impl LookAt<'_> {
    // The key of an in, where it has to be shown.
    fn wanted_for(&self, node: &Node, payment: &Payment, below: u64) -> Option<[u8; 32]>
        ensures { result ≡ wanted_for (state_of node.now) below self.now.i self.now.shown.now payment.now }
    {
        if u64::from(payment.end) >= below {
            return None;
        }
        let key = node.key_of(&payment.lock)?;
        if self.is_shown(&key) {
            return None;
        }
        Some(key)
    }

    // With the keys of these ins.
    fn gather(&self, keys: &mut Keys, node: &Node, ins: &[Payment], below: u64)
        requires { array_vec_len keys.old + length ins.now ≤ 64 }
        ensures value { keys.new.items ≡ gathered keys.old.items (wanted (state_of node.now) below self.now.i self.now.shown.now ins.now) }
        ensures count { array_vec_len keys.new ≤ array_vec_len keys.old + length ins.now }
    {
        for payment in ins {
            let Some(key) = self.wanted_for(node, payment, below) else {
                continue;
            };
            add_once(keys, key);
        }
    }

    // The keys that are shown in the account.
    pub(crate) fn keys_to_show(&self, node: &Node, account: &Account) -> Keys
        ensures { result.items ≡ keys_to_show (state_of node.now) self.now.tick self.now.shown.now self.now.i (standing_of account.now) }
    {
        let below = near_below(node.terms(), self.tick);
        let mut keys = Keys::new();
        self.gather(&mut keys, node, account.held.ins(), below);
        let Some(next) = account.under_way() else {
            return keys;
        };
        self.gather(&mut keys, node, next.ins(), below);
        keys
    }
}
