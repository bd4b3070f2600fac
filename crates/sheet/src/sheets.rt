// What can be done with a sheet by value: its ins and outs, one more, one less, and the neighbour's view.
ghost use Rattle.std.specs.Prelude.{◌≡◌, ◌≤◌, length};
ghost use Rattle.std.specs.Option.{option_map};
ghost use Rattle.sheet.specs.Contents.{content_of, first_of, from_parts, with_ins, with_outs, added_to, without, turned_of};

use crate::payments::{added, array_of, removed};
use crate::types::{Payment, Sheet};

impl Sheet {
    // Sheet 0 of an account: the deposits.
    pub fn first(account: u8, own: u32, theirs: u32) -> Sheet
        ensures { content_of result ≡ first_of account own theirs }
    {
        Sheet {
            account,
            number: 0,
            own,
            theirs,
            ins: [Payment::default(); 32],
            in_count: 0,
            outs: [Payment::default(); 32],
            out_count: 0,
        }
    }

    // A sheet from its parts; None where a count is above 32.
    pub fn from_parts(
        account: u8,
        number: u32,
        own: u32,
        theirs: u32,
        ins: &[Payment],
        outs: &[Payment],
    ) -> Option<Sheet>
        ensures { option_map content_of result ≡ from_parts account number own theirs ins.now outs.now }
    {
        Some(Sheet {
            account,
            number,
            own,
            theirs,
            ins: array_of(ins)?,
            in_count: ins.len(),
            outs: array_of(outs)?,
            out_count: outs.len(),
        })
    }

    pub fn ins(&self) -> &[Payment]
        ensures value { result.now ≡ (content_of self.now).ins }
        ensures few { length result.now ≤ 32 }
    {
        &self.ins[0..self.in_count]
    }

    pub fn outs(&self) -> &[Payment]
        ensures value { result.now ≡ (content_of self.now).outs }
        ensures few { length result.now ≤ 32 }
    {
        &self.outs[0..self.out_count]
    }

    // One in more, which comes first; None where there are 32.
    pub fn with_in(self, p: Payment) -> Option<Sheet>
        ensures { option_map content_of result ≡ added_to with_ins (content_of self) (content_of self).ins p }
    {
        let mut next = self;
        (next.ins, next.in_count) = added(self.ins, self.in_count, p)?;
        Some(next)
    }

    // One out more, which comes first; None where there are 32. What outs share with ins are `added` and `removed`; to pick
    // the arrays by a closure would be longer than these lines.
    pub fn with_out(self, p: Payment) -> Option<Sheet>
        ensures { option_map content_of result ≡ added_to with_outs (content_of self) (content_of self).outs p }
    {
        let mut next = self;
        (next.outs, next.out_count) = added(self.outs, self.out_count, p)?;
        Some(next)
    }

    // The sheet without the in that has the lock, if there is one.
    pub fn without_in(self, lock: &[u8; 32]) -> Sheet
        ensures { content_of result ≡ with_ins (content_of self) (without lock.now (content_of self).ins) }
    {
        let mut next = self;
        (next.ins, next.in_count) = removed(self.ins, self.in_count, lock);
        next
    }

    // The sheet without the out that has the lock, if there is one.
    pub fn without_out(self, lock: &[u8; 32]) -> Sheet
        ensures { content_of result ≡ with_outs (content_of self) (without lock.now (content_of self).outs) }
    {
        let mut next = self;
        (next.outs, next.out_count) = removed(self.outs, self.out_count, lock);
        next
    }

    // The neighbour's view of the sheet, written out: own and theirs, ins and outs change places.
    pub fn turned(self) -> Sheet
        ensures { content_of result ≡ turned_of (content_of self) }
    {
        let (ins, outs) = (self.outs, self.ins);
        Sheet {
            account: self.account,
            number: self.number,
            own: self.theirs,
            theirs: self.own,
            ins,
            in_count: self.out_count,
            outs,
            out_count: self.in_count,
        }
    }
}
