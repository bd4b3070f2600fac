// What the node gets of an account whose dispute has ended, and whether that can still change.
ghost use Rattle.std.specs.Prelude.{◌≡◌, ◌+◌, ◌*◌, ◌^◌, ◌≤◌, Bool, true, ◌&&◌, ◌||◌, length, nat_le, nat_lt};
ghost use Rattle.std.specs.Str.{bytes_eq};
ghost use Rattle.sheet.specs.Contents.{content_of};
ghost use Rattle.digest.specs.Sha256.{sha256};
ghost use Rattle.register.specs.Laws.{PayoutStays};
ghost use Rattle.sheet.specs.declared.types.Payment.{Payment};
ghost use Rattle.register.specs.Pages.{page_of, keys_of, PaidAs};
ghost use Rattle.register.specs.Register.{shown_in_time, amounts_of, payout_of, all_over, is_settled};

use crate::types::{KeyAt, Page, Phase};
use digest::lock;
use sheet::{Payment, Sheet};

// Up to this tick a key counts also for a payment whose end is past.
fn last_tick(until: u64, delay: u32) -> u128
    ensures { result ≡ until + delay }
{
    u128::from(until) + u128::from(delay)
}

// Is this the payment's key, shown no later than the payment's end, or than `last`, whichever is later.
fn opens(k: &KeyAt, p: &Payment, last: u128) -> bool
    ensures { result ≡ (bytes_eq (sha256 k.now.key) p.now.lock && (nat_le k.now.tick p.now.end || nat_le k.now.tick last)) }
{
    lock(&k.key) == p.lock && (k.tick <= p.end || u128::from(k.tick) <= last)
}

fn shown_in_time(keys: &[KeyAt], p: &Payment, last: u128) -> bool
    ensures { result ≡ shown_in_time last p.now (keys_of keys.now) }
{
    keys.iter().any(|k| opens(k, p, last))
}

// The amounts of those payments that pass the test.
fn amounts_of<F: Fn(&Payment) -> bool>(list: &[Payment], test: F) -> u64
    requires few { length list.now ≤ 32 }
    requires callable { F.IsAlwaysCallable test }
    ensures value { (t : Payment → Bool) → ((p : _) (b : Bool) → F.post test p b → b ≡ t p.now) → result ≡ amounts_of t list.now }
    ensures bound { result ≤ 32 * 2 ^ 32 }
{
    let mut sum = 0;
    for p in list {
        if test(p) {
            sum += u64::from(p.amount);
        }
    }
    sum
}

// Do the payment's end, and the tick `last`, lie before the tick.
fn is_over(p: &Payment, last: u128, tick: u32) -> bool
    ensures { result ≡ (nat_lt p.now.end tick && nat_lt last tick) }
{
    p.end < tick && last < u128::from(tick)
}

fn all_over(list: &[Payment], last: u128, tick: u32) -> bool
    ensures { result ≡ all_over last tick list.now }
{
    list.iter().all(|p| is_over(p, last, tick))
}

impl Page {
    // What the node gets if the sheet counts, and the dispute ended at `until`.
    fn paid_out(&self, sheet: &Sheet, until: u64, delay: u32) -> u64
        ensures { PaidAs (content_of sheet.now) until delay (page_of self.now).keys result }
    {
        let last = last_tick(until, delay);
        let ins = amounts_of(sheet.ins(), |p| shown_in_time(&self.keys, p, last));
        let outs = amounts_of(sheet.outs(), |p| !shown_in_time(&self.keys, p, last));
        u64::from(sheet.own) + ins + outs
    }

    // What the node gets, where the dispute has ended; else nothing yet.
    pub fn payout(&self, delay: u32) -> u64
        ensures { result ≡ payout_of delay (page_of self.now).keys (page_of self.now).phase }
    {
        if let Phase::Ended { sheet, until } = self.phase {
            self.paid_out(&sheet, until, delay)
        } else {
            0
        }
    }

    fn settled(&self, delay: u32, tick: u32) -> bool
        ensures { result ≡ is_settled delay tick (page_of self.now).phase }
    {
        let Phase::Ended { sheet, until } = self.phase else {
            return false;
        };
        let last = last_tick(until, delay);
        until <= u64::from(tick)
            && all_over(sheet.ins(), last, tick)
            && all_over(sheet.outs(), last, tick)
    }

    // Is the account settled: if so, nothing that is shown at this tick or later changes the payout.
    pub fn is_settled(&self, delay: u32, tick: u32) -> bool
        ensures value { result ≡ is_settled delay tick (page_of self.now).phase }
        ensures stays { result ≡ true → PayoutStays delay tick (page_of self.now) }
    {
        self.settled(delay, tick)
    }
}
