// Time: what happens at each tick by itself.
use crate::player::Player;
use crate::types::{Happening, OfNode, Trouble};
use crate::world::{Arrival, Scene, World};
use schedule::{is_due, is_missed};

impl Scene {
    // In the register, disputes whose time is over have ended.
    fn turn_accounts(&mut self) -> Result<(), Trouble> {
        for joint in self.accounts.iter_mut() {
            joint.turn(&mut self.progress)?;
        }
        Ok(())
    }

    // The first thing on its way, if it is due: what was sent first comes in first, since all of it takes as long.
    fn take_due(&mut self) -> Option<Arrival> {
        if self.arrivals.front()?.due > u64::from(self.progress.tick) {
            return None;
        }
        self.arrivals.pop_front()
    }

    // All that is due at this tick comes into the register.
    fn due_comes(&mut self) -> Result<(), Trouble> {
        for _ in 0..self.arrivals.len() {
            let Some(arrival) = self.take_due() else {
                return Ok(());
            };
            self.item_comes(arrival.account, arrival.item)?;
        }
        Ok(())
    }

    fn look_if_due(&mut self, player: &mut Player) -> Result<(), Trouble> {
        let tick = self.progress.tick;
        let is_due = is_due(player.looked, self.terms.look, tick);
        if player.running && player.looks_by_itself(tick) && is_due {
            self.looks_itself(player)?;
        }
        Ok(())
    }

    // That a node has missed a look is told once.
    fn note_if_missed(&mut self, player: &mut Player) -> Result<(), Trouble> {
        let is_missed = is_missed(player.looked, self.terms.look, self.progress.tick);
        if player.missed || !is_missed {
            return Ok(());
        }
        player.missed = true;
        self.progress.note(Happening::Node(OfNode::Missed {
            node: player.party,
            last: player.looked,
        }))
    }
}

impl World {
    // One tick more: disputes end, what is due comes into the register, and the nodes look whose time it is.
    fn turn_to(&mut self, tick: u32) -> Result<(), Trouble> {
        self.scene.progress.tick = tick;
        self.scene.turn_accounts()?;
        self.scene.due_comes()?;
        for player in self.players.iter_mut() {
            self.scene.note_if_missed(player)?;
            self.scene.look_if_due(player)?;
        }
        Ok(())
    }

    // Time goes on to a tick.
    pub(crate) fn go_to(&mut self, tick: u32) -> Result<(), Trouble> {
        for next in (self.scene.progress.tick..=tick).skip(1) {
            self.turn_to(next)?;
        }
        Ok(())
    }

    // At the beginning each node looks.
    pub(crate) fn first_looks(&mut self) -> Result<(), Trouble> {
        for player in self.players.iter_mut() {
            self.scene.looks_itself(player)?;
        }
        Ok(())
    }
}
