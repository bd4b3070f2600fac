// How nodes look, stop and start.
use crate::player::{Cut, Looks};
use crate::types::{Answer, Happening, OfNode, Trouble};
use crate::world::{World, player_in};
use script::Command;

impl World {
    pub(crate) fn played(&mut self, command: Command, answer: Answer) -> Result<(), Trouble> {
        self.note(Happening::Played { command, answer })
    }

    // From now on the node looks so.
    pub(crate) fn set_looks(
        &mut self,
        node: usize,
        looks: Looks,
        command: Command,
    ) -> Result<(), Trouble> {
        if let Some(player) = self.player_mut(node) {
            player.looks = looks;
        }
        self.played(command, Answer::Taken)
    }

    // In its next entry the node stops after some acts.
    pub(crate) fn stop_after(
        &mut self,
        node: usize,
        cut: Cut,
        command: Command,
    ) -> Result<(), Trouble> {
        if let Some(player) = self.player_mut(node) {
            player.cut = Some(cut);
        }
        self.played(command, Answer::Taken)
    }

    pub(crate) fn stop(&mut self, node: usize, command: Command) -> Result<(), Trouble> {
        if let Some(player) = self.player_mut(node) {
            player.stop(false);
        }
        self.played(command, Answer::Taken)?;
        self.note(Happening::Node(OfNode::Stopped { node }))
    }

    // The node comes up from its file, sends again, and looks unless the script keeps it from that. Whoever is no node is told of
    // as started too, as it is told of as stopped, and does nothing.
    fn come_up(&mut self, node: usize) -> Result<(), Trouble> {
        let started = Happening::Node(OfNode::Started { node });
        let Some(player) = player_in(self.players.as_mut_slice(), node) else {
            return self.note(started);
        };
        player.start(self.scene.heap, self.scene.terms)?;
        self.scene.progress.note(started)?;
        self.scene.send_again(player)?;
        if player.looks_by_itself(self.scene.progress.tick) {
            self.scene.looks_itself(player)?;
        }
        Ok(())
    }

    // The node starts, and messages go on.
    pub(crate) fn start(&mut self, node: usize, command: Command) -> Result<(), Trouble> {
        self.played(command, Answer::Taken)?;
        self.come_up(node)?;
        self.deliver_all()
    }
}
