// What sheets come to where each key is shown just if that is worse for the node.
ghost use Rattle.std.specs.Prelude.{◌≡◌, ℕ, Bool, ◌*◌, ◌≤◌, List, map, length, sum_by};
ghost use Rattle.std.specs.Fn.{FnReturnsAt};
ghost use Rattle.sheet.specs.Contents.{Content, content_of};
ghost use Rattle.node_state.specs.Nodes.{state_of};
ghost use Rattle.judgement.specs.Tests.{has_key};
ghost use Rattle.moments.specs.Moments.{those, worth_by};
ghost use Rattle.counting.specs.Leasts.{with_lock, ins_with, outs_with, is_worse_shown, least_by};

use node_state::Node;
use sheet::{Payment, Sheet};

// What the payments amount to whose lock counts.
fn amount_of<F: Fn(&[u8; 32]) -> bool>(list: &[Payment], counts: F) -> u64
    requires few { length list.now ≤ 32 }
    requires callable { F.IsAlwaysCallable counts }
    ensures value { (f : List ℕ → Bool) → ((lock : _) (b : Bool) → F.post counts lock b → b ≡ f lock.now) → result ≡ those f list.now }
    ensures bound { result ≤ 32 * 4294967295 }
{
    // a loop, as in change's amounts: for map and sum there, what proves the bound was not found
    let mut sum = 0;
    for p in list {
        if counts(&p.lock) {
            sum += u64::from(p.amount);
        }
    }
    sum
}

// What the sheets come to together.
fn sum_of<F: Fn(&Sheet) -> u64>(sheets: &[Sheet], each: F) -> u64
    requires few { length sheets.now ≤ 16 }
    requires callable { F.IsAlwaysCallable each }
    requires small { (s : _) (n : ℕ) → FnReturnsAt F.Fn each s n → n ≤ 65 * 4294967295 }
    ensures value { (w : Content → ℕ) → ((s : _) (n : ℕ) → FnReturnsAt F.Fn each s n → n ≡ w (content_of s)) → result ≡ sum_by w (map content_of sheets.now) }
    ensures bound { result ≤ 16 * (65 * 4294967295) }
{
    // a loop, as in amount_of
    let mut sum = 0;
    for sheet in sheets {
        sum += each(sheet);
    }
    sum
}

// What the payments with a lock amount to.
fn with_lock(list: &[Payment], lock: &[u8; 32]) -> u64
    requires { length list.now ≤ 32 }
    ensures value { result ≡ with_lock lock.now list.now }
    ensures bound { result ≤ 32 * 4294967295 }
{
    amount_of(list, |x| x == lock)
}

fn ins_with(sheets: &[Sheet], lock: &[u8; 32]) -> u64
    requires { length sheets.now ≤ 16 }
    ensures { result ≡ ins_with (map content_of sheets.now) lock.now }
{
    sum_of(sheets, |sheet| with_lock(sheet.ins(), lock))
}

fn outs_with(sheets: &[Sheet], lock: &[u8; 32]) -> u64
    requires { length sheets.now ≤ 16 }
    ensures { result ≡ outs_with (map content_of sheets.now) lock.now }
{
    sum_of(sheets, |sheet| with_lock(sheet.outs(), lock))
}

// Has the node least of the lock if its key is shown.
fn is_worse_shown(node: &Node, sheets: &[Sheet], lock: &[u8; 32]) -> bool
    requires { length sheets.now ≤ 16 }
    ensures { result ≡ is_worse_shown (has_key (state_of node.now)) (map content_of sheets.now) lock.now }
{
    node.key_of(lock).is_some() || ins_with(sheets, lock) <= outs_with(sheets, lock)
}

// What one of the sheets comes to: own, the ins that come in, and the outs that come back.
fn worth(node: &Node, sheets: &[Sheet], sheet: &Sheet) -> u64
    requires { length sheets.now ≤ 16 }
    ensures value { result ≡ worth_by (is_worse_shown (has_key (state_of node.now)) (map content_of sheets.now)) (is_worse_shown (has_key (state_of node.now)) (map content_of sheets.now)) (content_of sheet.now) }
    ensures bound { result ≤ 65 * 4294967295 }
{
    u64::from(sheet.own)
        + amount_of(sheet.ins(), |lock| is_worse_shown(node, sheets, lock))
        + amount_of(sheet.outs(), |lock| !is_worse_shown(node, sheets, lock))
}

// What all of them come to.
pub(crate) fn total(node: &Node, sheets: &[Sheet]) -> u64
    requires { length sheets.now ≤ 16 }
    ensures value { result ≡ least_by (has_key (state_of node.now)) (map content_of sheets.now) }
    ensures bound { result ≤ 16 * (65 * 4294967295) }
{
    sum_of(sheets, |sheet| worth(node, sheets, sheet))
}
