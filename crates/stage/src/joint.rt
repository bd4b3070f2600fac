// An account of two parties, with the register's page for it.
use crate::progress::{Delivery, Progress};
use crate::types::{Happening, InRegister, Letter, Trouble};
use judgement::Signature;
use register::{Page, Phase};
use rules::Message;
use schedule::Terms;
use sheet::Sheet;
use std::alloc::{AllocError, Global};

// One party's side: its number for the account, where it is a node, what it put in, and the sheets that it signed and sent, in
// its own view.
#[derive(Drop)]
pub(crate) struct End {
    pub(crate) party: usize,
    pub(crate) number: Option<u8>,
    pub(crate) put_in: u32,
    pub(crate) signed: Vec<Sheet>,
}

// `account` is its number in the script. The page is in the first party's view.
#[derive(Drop)]
pub(crate) struct Joint {
    pub(crate) account: usize,
    pub(crate) first: End,
    pub(crate) second: End,
    pub(crate) page: Page,
}

// What comes into the register: a sheet with both signatures, in the page's view, or a key.
#[derive(Clone, Copy)]
pub(crate) enum Item {
    Sheet(Sheet),
    Key([u8; 32]),
}

impl End {
    // The sheet with a number that the party has signed.
    fn signed_with(&self, number: u32) -> Option<Sheet> {
        self.signed
            .iter()
            .copied()
            .find(|sheet| sheet.number == number)
    }

    fn add_signed(&mut self, sheet: Sheet) -> Result<(), AllocError> {
        if self.signed_with(sheet.number).is_none() {
            self.signed.push(sheet)?;
        }
        Ok(())
    }

    // No message of one that is not a node is made here.
    fn signature(&self, number: u32) -> Signature {
        Signature {
            account: self.number.unwrap_or(0),
            number,
        }
    }
}

// The number of the sheet that a page shows, and until when.
pub(crate) fn shown_in(phase: &Phase) -> Option<(u32, u64)> {
    match *phase {
        Phase::Quiet => None,
        Phase::Disputed { sheet, until } | Phase::Ended { sheet, until } => {
            Some((sheet.number, until))
        }
    }
}

impl Joint {
    // A script asks the same of an opening, which a joint doesn't keep: its two ends have what stands there.
    pub(crate) fn is_between(&self, a: usize, b: usize) -> bool {
        let as_written = self.first.party == a && self.second.party == b;
        let turned = self.first.party == b && self.second.party == a;
        as_written || turned
    }

    // A party's side, and the other; the second party's side for whoever is not the first.
    pub(crate) fn end_of(&self, party: usize) -> &End {
        if self.first.party == party {
            &self.first
        } else {
            &self.second
        }
    }

    fn other_end(&self, party: usize) -> &End {
        if self.first.party == party {
            &self.second
        } else {
            &self.first
        }
    }

    // A node's own number for the account; none where it isn't the node's.
    pub(crate) fn number_for(&self, party: usize) -> Option<u8> {
        let end = self.end_of(party);
        if end.party == party { end.number } else { None }
    }

    // The party has signed the sheet and sent it off.
    fn note_signed(&mut self, party: usize, sheet: Sheet) -> Result<(), AllocError> {
        if self.first.party == party {
            self.first.add_signed(sheet)
        } else {
            self.second.add_signed(sheet)
        }
    }

    // The sheet with a number that a party has signed, in the page's view.
    pub(crate) fn shown_by(&self, party: usize, number: u32) -> Option<Sheet> {
        let sheet = self.end_of(party).signed_with(number)?;
        Some(self.in_page_view(party, sheet))
    }

    // A sheet in a party's view, as the page has it.
    pub(crate) fn in_page_view(&self, party: usize, sheet: Sheet) -> Sheet {
        if self.first.party == party {
            sheet
        } else {
            sheet.turned()
        }
    }

    pub(crate) fn sheet_comes(
        &mut self,
        progress: &mut Progress,
        terms: Terms,
        sheet: Sheet,
    ) -> Result<(), Trouble> {
        let account = self.account;
        let number = sheet.number;
        let before = shown_in(&self.page.phase());
        self.page.show_sheet(terms.window, progress.tick, sheet);
        let after = shown_in(&self.page.phase());
        progress.note(match (before, after) {
            (None, Some((_, until))) => Happening::Register(InRegister::Opened {
                account,
                number,
                until,
            }),
            (Some((old, _)), Some((new, until))) if old != new => Happening::Register(
                InRegister::Replaced {
                    account,
                    number,
                    until,
                },
            ),
            _ => Happening::Register(InRegister::TurnedAway { account, number }),
        })
    }

    // A key counts from when it is first shown for the account.
    pub(crate) fn key_comes(
        &mut self,
        progress: &mut Progress,
        key: [u8; 32],
    ) -> Result<(), Trouble> {
        if self.page.keys().iter().any(|known| known.key == key) {
            return Ok(());
        }
        self.page.show_key(progress.tick, key)?;
        progress.note(Happening::Register(InRegister::KeyCame {
            account: self.account,
            key,
        }))
    }

    pub(crate) fn item_comes(
        &mut self,
        progress: &mut Progress,
        terms: Terms,
        item: Item,
    ) -> Result<(), Trouble> {
        match item {
            Item::Sheet(sheet) => self.sheet_comes(progress, terms, sheet),
            Item::Key(key) => self.key_comes(progress, key),
        }
    }

    // Time goes on in the register; if the dispute ends now, that is told with the sheet that counts.
    pub(crate) fn turn(&mut self, progress: &mut Progress) -> Result<(), Trouble> {
        let before = self.page.phase();
        self.page.turn_to(progress.tick);
        match (before, self.page.phase()) {
            (Phase::Ended { .. }, _) => Ok(()),
            (_, Phase::Ended { sheet, .. }) => progress.note(Happening::Register(
                InRegister::Ended {
                    account: self.account,
                    number: sheet.number,
                },
            )),
            _ => Ok(()),
        }
    }

    // What a party gets where the dispute has ended.
    pub(crate) fn payout_for(&self, party: usize, delay: u32) -> u64 {
        let first = self.page.payout(delay);
        if self.first.party == party {
            return first;
        }
        let all = u64::from(self.first.put_in) + u64::from(self.second.put_in);
        all.saturating_sub(first)
    }

    // A message is told, and goes on to the neighbour if that is a node.
    fn send(
        &self,
        progress: &mut Progress,
        from: usize,
        letter: Letter,
        message: Message,
    ) -> Result<(), Trouble> {
        let other = self.other_end(from);
        let to = other.party;
        progress.note(Happening::Sent { from, to, letter })?;
        if other.number.is_some() {
            progress.deliveries.push_back(Delivery {
                from,
                to,
                letter,
                message,
            })?;
        }
        Ok(())
    }

    // A party sends a sheet with its signature under it.
    pub(crate) fn send_sheet(
        &mut self,
        progress: &mut Progress,
        party: usize,
        sheet: Sheet,
    ) -> Result<(), Trouble> {
        self.note_signed(party, sheet)?;
        let number = sheet.number;
        let signature = self.end_of(party).signature(number);
        let message = Message::ProposedSigned(sheet, signature);
        self.send(progress, party, Letter::Sheet { number }, message)
    }

    // A party sends its signature under the sheet with a number, which it may have.
    pub(crate) fn send_signature(
        &mut self,
        progress: &mut Progress,
        party: usize,
        number: u32,
        sheet: Option<Sheet>,
    ) -> Result<(), Trouble> {
        if let Some(sheet) = sheet {
            self.note_signed(party, sheet)?;
        }
        let message = Message::Signed(self.end_of(party).signature(number));
        self.send(progress, party, Letter::Signature { number }, message)
    }
}
