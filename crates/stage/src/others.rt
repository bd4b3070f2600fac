// What the others do: they propose, sign, and show in the register, as the script says.
use crate::joint::Item;
use crate::types::{Answer, Trouble};
use crate::world::World;
use account::Account;
use change::{Change, apply};
use judgement::Signature;
use rules::Message;
use script::{Command, Promised};
use sheet::{Payment, Sheet};
use small_keys::{key_of, lock_of};

pub(crate) fn payment(promised: Promised) -> Payment {
    Payment {
        lock: lock_of(promised.key),
        amount: promised.amount,
        end: promised.end,
    }
}

// A payment of which only the lock counts.
fn with_lock(key: u32) -> Payment {
    payment(Promised {
        key,
        amount: 0,
        end: 0,
    })
}

// The signature of another: its number for the account is not looked at.
fn signature(number: u32) -> Signature {
    Signature { account: 0, number }
}

fn proposing(sheet: Sheet, signed: bool) -> Message {
    if signed {
        Message::ProposedSigned(sheet, signature(sheet.number))
    } else {
        Message::Proposed(sheet)
    }
}

// The number of the sheet that another signs: that of the node's next, where there is one.
fn number_to_sign(account: &Account) -> u32 {
    account.under_way().unwrap_or(&account.held).number
}

impl World {
    // A node's account with another party.
    fn standing_with(&self, node: usize, other: usize) -> Option<Account> {
        let number = self.number_of(node, other);
        Some(self.player(node)?.node.account(usize::from(number)))
    }

    // The sheet that another proposes, in its own view: the node's held sheet with a change.
    fn proposed(&self, from: usize, to: usize, change: Change, payment: Payment) -> Option<Sheet> {
        let account = self.standing_with(to, from)?;
        apply(account.held.turned(), change, payment).ok()
    }

    // A message of another to a node, for their account.
    pub(crate) fn told_by(
        &mut self,
        from: usize,
        to: usize,
        message: Message,
        command: Command,
    ) -> Result<(), Trouble> {
        let account = self.number_of(to, from);
        self.told(to, account, message, command)
    }

    // Another proposes a sheet with a change to what a node holds. The two parties come of the command, which goes along to be
    // told of: a struct of the three would be the command again.
    pub(crate) fn propose(
        &mut self,
        from: usize,
        to: usize,
        change: Change,
        payment: Payment,
        signed: bool,
        command: Command,
    ) -> Result<(), Trouble> {
        match self.proposed(from, to, change, payment) {
            Some(sheet) => self.told_by(from, to, proposing(sheet, signed), command),
            None => self.played(command, Answer::NoSheet),
        }
    }

    // The other takes an out of the node off: back to the node, or, where it pays, an in.
    pub(crate) fn take_off(
        &mut self,
        from: usize,
        to: usize,
        change: Change,
        key: u32,
        signed: bool,
        command: Command,
    ) -> Result<(), Trouble> {
        self.propose(from, to, change, with_lock(key), signed, command)
    }

    pub(crate) fn sign(&mut self, from: usize, to: usize, command: Command) -> Result<(), Trouble> {
        match self.standing_with(to, from) {
            Some(account) => {
                let message = Message::Signed(signature(number_to_sign(&account)));
                self.told_by(from, to, message, command)
            }
            None => Ok(()),
        }
    }

    pub(crate) fn key_to(&mut self, key: u32, to: usize, command: Command) -> Result<(), Trouble> {
        self.told(to, 0, Message::Key(key_of(key)), command)
    }

    // A sheet that the node has signed comes into the register.
    pub(crate) fn show_old(
        &mut self,
        by: usize,
        of: usize,
        number: u32,
        command: Command,
    ) -> Result<(), Trouble> {
        let Some(joint) = self.account_of(by, of) else {
            return Ok(());
        };
        let Some(sheet) = joint.shown_by(of, number) else {
            return self.played(command, Answer::NoSheet);
        };
        let account = joint.account;
        self.played(command, Answer::Taken)?;
        self.scene.item_comes(account, Item::Sheet(sheet))
    }

    pub(crate) fn show_key_for(
        &mut self,
        key: u32,
        first: usize,
        second: usize,
        command: Command,
    ) -> Result<(), Trouble> {
        let Some(joint) = self.account_of(first, second) else {
            return Ok(());
        };
        let account = joint.account;
        self.played(command, Answer::Taken)?;
        self.scene.item_comes(account, Item::Key(key_of(key)))
    }
}
