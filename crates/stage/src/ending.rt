// What is there at a moment, and what each node comes out with.
use crate::joint::Joint;
use crate::player::Player;
use crate::progress::Progress;
use crate::types::{Ending, Happening, InRegister, Outcome, Standing, Trouble};
use crate::world::World;
use account::Account;
use register::Phase;
use schedule::Terms;

// Nothing is open on what may count.
fn is_clean(account: &Account) -> bool {
    account.under_way().is_none() && account.held.ins().is_empty() && account.held.outs().is_empty()
}

impl Joint {
    // The account as a node has it, where it is one of the node's.
    fn standing_of(&self, player: &Player) -> Option<Account> {
        let number = self.number_for(player.party)?;
        Some(player.node.account(usize::from(number)))
    }

    fn show_standing(&self, progress: &mut Progress, player: &Player) -> Result<(), Trouble> {
        let Some(standing) = self.standing_of(player) else {
            return Ok(());
        };
        progress.note(Happening::Standing(Standing::Held {
            node: player.party,
            account: self.account,
            sheet: standing.held,
            frozen: standing.is_frozen(),
        }))?;
        if let Some(next) = standing.under_way() {
            progress.note(Happening::Standing(Standing::Next {
                node: player.party,
                account: self.account,
                sheet: *next,
            }))?;
        }
        Ok(())
    }

    fn show_page(&self, progress: &mut Progress) -> Result<(), Trouble> {
        let account = self.account;
        let phase = self.page.phase();
        progress.note(Happening::Register(InRegister::Page { account, phase }))?;
        for known in self.page.keys() {
            progress.note(Happening::Register(InRegister::PageKey {
                account,
                key: known.key,
                tick: known.tick,
            }))?;
        }
        Ok(())
    }

    // How the account of a node was ended, or that it was not.
    fn ending_of(&self, player: &Player, terms: Terms, tick: u32) -> Option<Ending> {
        let standing = self.standing_of(player)?;
        if self.page.is_settled(terms.delay, tick) {
            let paid = self.payout_for(player.party, terms.delay);
            return Some(Ending::ByDispute { paid });
        }
        Some(match self.page.phase() {
            Phase::Quiet if is_clean(&standing) => Ending::ByAgreement {
                paid: u64::from(standing.held.own),
            },
            _ => Ending::NotSettled,
        })
    }
}

// The accounts of a node together: what came out of those that are settled, and whether all of them are.
#[derive(Clone, Copy)]
struct Sum {
    put_in: u64,
    came_out: u64,
    settled: bool,
}

impl Sum {
    fn add(self, put_in: u32, ending: Ending) -> Sum {
        let paid = ending.paid();
        Sum {
            put_in: self.put_in.saturating_add(u64::from(put_in)),
            came_out: self.came_out.saturating_add(paid.unwrap_or(0)),
            settled: self.settled && paid.is_some(),
        }
    }
}

// What a node put in and comes out with, account by account and in all.
fn end_node(
    progress: &mut Progress,
    accounts: &[Joint],
    player: &Player,
    terms: Terms,
) -> Result<(), Trouble> {
    let node = player.party;
    let mut sum = Sum {
        put_in: 0,
        came_out: 0,
        settled: true,
    };
    for joint in accounts {
        if let Some(ending) = joint.ending_of(player, terms, progress.tick) {
            let put_in = joint.end_of(node).put_in;
            sum = sum.add(put_in, ending);
            progress.note(Happening::Outcome(Outcome::Result {
                node,
                account: joint.account,
                put_in,
                ending,
            }))?;
        }
    }
    progress.note(Happening::Outcome(Outcome::Total {
        node,
        put_in: sum.put_in,
        came_out: sum.came_out,
        settled: sum.settled,
    }))
}

impl World {
    // Sheets, disputes and keys.
    pub(crate) fn show_all(&mut self) -> Result<(), Trouble> {
        for player in self.players.iter() {
            for joint in self.scene.accounts.iter() {
                joint.show_standing(&mut self.scene.progress, player)?;
            }
        }
        for joint in self.scene.accounts.iter() {
            joint.show_page(&mut self.scene.progress)?;
        }
        Ok(())
    }

    // What each node put in and comes out with.
    pub(crate) fn end_all(&mut self) -> Result<(), Trouble> {
        let terms = self.scene.terms;
        for player in self.players.iter() {
            end_node(
                &mut self.scene.progress,
                self.scene.accounts.as_slice(),
                player,
                terms,
            )?;
        }
        Ok(())
    }
}
