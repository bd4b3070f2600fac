// Entries of nodes: calls, messages, looks, and messages that go on from node to node.
use crate::joint::shown_in;
use crate::player::Player;
use crate::progress::Delivery;
use crate::types::{Answer, Happening, OfNode, Trouble};
use crate::world::{Scene, World, player_in};
use looking::Shown;
use plan::Plan;
use rules::{Call, Message};
use script::Command;

// More messages than this one line of a script can't set off: each message makes a sheet held or is refused.
const MOST_DELIVERIES: usize = 10_000;

// What an entry came from.
#[derive(Clone, Copy)]
enum Entry {
    Line(Command),
    Letter(Delivery),
    Look(usize),
}

impl Entry {
    // The entry with its answer, as it is told.
    fn with(self, answer: Answer) -> Happening {
        match self {
            Entry::Line(command) => Happening::Played { command, answer },
            Entry::Letter(delivery) => Happening::Came {
                from: delivery.from,
                to: delivery.to,
                letter: delivery.letter,
                answer,
            },
            Entry::Look(node) => Happening::Looked { node, answer },
        }
    }
}

impl Scene {
    // An entry that was judged: its acts are carried out, and it is told with its answer.
    fn finish(
        &mut self,
        player: &mut Player,
        plan: &Plan,
        answer: Answer,
        what: Entry,
    ) -> Result<(), Trouble> {
        let was_running = player.running;
        let done = player.carry_out(plan.acts.as_slice())?;
        let stops = was_running && !player.running;
        let answer = if stops { Answer::Stopped } else { answer };
        self.progress.note(what.with(answer))?;
        if stops {
            self.progress
                .note(Happening::Node(OfNode::Stopped { node: player.party }))?;
        }
        self.leave_all(player, done)
    }

    // A message comes to a node.
    fn tell(
        &mut self,
        player: &mut Player,
        account: u8,
        message: Message,
        what: Entry,
    ) -> Result<(), Trouble> {
        let mut plan = Plan::new(self.heap);
        let answer = player.tell(&mut plan, account, message)?;
        self.finish(player, &plan, answer, what)
    }

    // What the register shows for the accounts of a party.
    fn shown_to(&self, party: usize) -> Result<Vec<Shown>, Trouble> {
        let mut shown = Vec::new(self.heap);
        for joint in self.accounts.iter() {
            if let Some(number) = joint.number_for(party) {
                let account = u32::from(number);
                if let Some((number, until)) = shown_in(&joint.page.phase()) {
                    shown.push(Shown::Dispute {
                        account,
                        number,
                        until: u32::try_from(until).unwrap_or(u32::MAX),
                    })?;
                }
                for known in joint.page.keys() {
                    shown.push(Shown::Key {
                        account,
                        key: known.key,
                        tick: known.tick,
                    })?;
                }
            }
        }
        Ok(shown)
    }

    fn look(&mut self, player: &mut Player, what: Entry) -> Result<(), Trouble> {
        let shown = self.shown_to(player.party)?;
        let mut plan = Plan::new(self.heap);
        let answer = player.look(&mut plan, self.progress.tick, shown.as_slice())?;
        self.finish(player, &plan, answer, what)
    }

    // A look that a node makes by itself.
    pub(crate) fn looks_itself(&mut self, player: &mut Player) -> Result<(), Trouble> {
        self.look(player, Entry::Look(player.party))
    }
}

impl World {
    // The owner of a node asks for something.
    pub(crate) fn ask(
        &mut self,
        party: usize,
        call: Call,
        command: Command,
    ) -> Result<(), Trouble> {
        let Some(player) = player_in(self.players.as_mut_slice(), party) else {
            return Ok(());
        };
        let mut plan = Plan::new(self.scene.heap);
        let answer = player.ask(&mut plan, call)?;
        self.scene
            .finish(player, &plan, answer, Entry::Line(command))?;
        self.deliver_all()
    }

    fn tell(
        &mut self,
        party: usize,
        account: u8,
        message: Message,
        what: Entry,
    ) -> Result<(), Trouble> {
        match player_in(self.players.as_mut_slice(), party) {
            Some(player) => self.scene.tell(player, account, message, what),
            None => Ok(()),
        }
    }

    // A message that a line of the script sends.
    pub(crate) fn told(
        &mut self,
        party: usize,
        account: u8,
        message: Message,
        command: Command,
    ) -> Result<(), Trouble> {
        self.tell(party, account, message, Entry::Line(command))?;
        self.deliver_all()
    }

    // Messages between nodes, one after the other, until there are none.
    pub(crate) fn deliver_all(&mut self) -> Result<(), Trouble> {
        for _message in 0..MOST_DELIVERIES {
            let Some(next) = self.scene.progress.deliveries.pop_front() else {
                return Ok(());
            };
            let account = self.number_of(next.to, next.from);
            self.tell(next.to, account, next.message, Entry::Letter(next))?;
        }
        Ok(())
    }

    // A look that the script tells.
    pub(crate) fn looks_by(&mut self, party: usize, command: Command) -> Result<(), Trouble> {
        match player_in(self.players.as_mut_slice(), party) {
            Some(player) => self.scene.look(player, Entry::Line(command)),
            None => Ok(()),
        }
    }
}
