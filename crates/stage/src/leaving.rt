// What leaves a node: messages to its neighbours, and what it shows to the register.
use crate::joint::Item;
use crate::player::Player;
use crate::types::{Happening, OfNode, Trouble};
use crate::world::{Arrival, Scene, numbered};
use plan::Act;
use schedule::comes_in_by;
use sheet::Sheet;

impl Scene {
    // Something comes into the register for an account.
    pub(crate) fn item_comes(&mut self, account: usize, item: Item) -> Result<(), Trouble> {
        match self.accounts.get_mut(account) {
            Some(joint) => joint.item_comes(&mut self.progress, self.terms, item),
            None => Ok(()),
        }
    }

    // A node sends something to the register: it comes in as late as it may, or at once where the script says so.
    fn send_off(&mut self, account: usize, item: Item) -> Result<(), Trouble> {
        if self.at_once {
            return self.item_comes(account, item);
        }
        let due = comes_in_by(self.progress.tick, self.terms.delay);
        self.arrivals.push_back(Arrival { due, account, item })?;
        Ok(())
    }

    fn send_sheet(&mut self, party: usize, number: usize, sheet: Sheet) -> Result<(), Trouble> {
        match numbered(self.accounts.as_mut_slice(), party, number) {
            Some(joint) => joint.send_sheet(&mut self.progress, party, sheet),
            None => Ok(()),
        }
    }

    fn send_signature(
        &mut self,
        player: &Player,
        number: usize,
        sheet: u32,
    ) -> Result<(), Trouble> {
        let party = player.party;
        let signed = player.sheet_of(number, sheet);
        match numbered(self.accounts.as_mut_slice(), party, number) {
            Some(joint) => joint.send_signature(&mut self.progress, party, sheet, signed),
            None => Ok(()),
        }
    }

    fn show_sheet(&mut self, party: usize, number: usize, sheet: Sheet) -> Result<(), Trouble> {
        let Some(joint) = numbered(self.accounts.as_mut_slice(), party, number) else {
            return Ok(());
        };
        let account = joint.account;
        let shown = joint.in_page_view(party, sheet);
        self.progress.note(Happening::Node(OfNode::SheetShown {
            by: party,
            account,
            number: sheet.number,
        }))?;
        self.send_off(account, Item::Sheet(shown))
    }

    fn show_key(&mut self, party: usize, number: usize, key: [u8; 32]) -> Result<(), Trouble> {
        let Some(joint) = numbered(self.accounts.as_mut_slice(), party, number) else {
            return Ok(());
        };
        let account = joint.account;
        self.progress.note(Happening::Node(OfNode::KeyShown {
            by: party,
            account,
            key,
        }))?;
        self.send_off(account, Item::Key(key))
    }

    fn leave(&mut self, player: &Player, act: &Act) -> Result<(), Trouble> {
        let party = player.party;
        match *act {
            Act::SendSheet(number, sheet) => self.send_sheet(party, number, sheet),
            Act::SendSignature(number, sheet) => self.send_signature(player, number, sheet),
            Act::ShowSheet(number, sheet) => self.show_sheet(party, number, sheet),
            Act::ShowKey(number, key) => self.show_key(party, number, key),
            Act::RecordKey(key) => self
                .progress
                .note(Happening::Node(OfNode::Learned { node: party, key })),
            _ => Ok(()),
        }
    }

    // What these acts of a node send off.
    pub(crate) fn leave_all(&mut self, player: &Player, acts: &[Act]) -> Result<(), Trouble> {
        for act in acts {
            self.leave(player, act)?;
        }
        Ok(())
    }

    // What may not have got out of a node's accounts is sent again.
    pub(crate) fn send_again(&mut self, player: &Player) -> Result<(), Trouble> {
        let party = player.party;
        for joint in self.accounts.iter_mut() {
            if let Some(number) = joint.number_for(party) {
                let account = player.node.account(usize::from(number));
                if account.held.number > 0 {
                    joint.send_sheet(&mut self.progress, party, account.held)?;
                }
                if let Some(next) = account.under_way() {
                    joint.send_sheet(&mut self.progress, party, *next)?;
                }
            }
        }
        Ok(())
    }
}
