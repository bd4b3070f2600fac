// The lines of a script, one by one.
use crate::others::payment;
use crate::player::{Cut, Looks};
use crate::types::{Answer, Trouble};
use crate::world::World;
use change::Change;
use rules::Call;
use script::{Command, Deed, Showing, Step, Turn, Wish};
use small_keys::lock_of;

impl World {
    // What the owner of a node asks for its account with another.
    fn ask_about<F: FnOnce(u32) -> Call>(
        &mut self,
        node: usize,
        other: usize,
        call: F,
        command: Command,
    ) -> Result<(), Trouble>
        requires { F.IsAlwaysCallable call }
    {
        let account = self.number_of(node, other);
        self.ask(node, call(u32::from(account)), command)
    }

    // What an owner asks of its node.
    fn play_wish(&mut self, wish: Wish) -> Result<(), Trouble> {
        let command = Command::Wish(wish);
        match wish {
            Wish::Passes {
                node,
                from,
                to,
                promised,
            } => {
                let from = u32::from(self.number_of(node, from));
                let payment = payment(promised);
                self.ask_about(node, to, |to| Call::Pass { from, to, payment }, command)
            }
            Wish::Pays { node, to, key } => {
                let lock = lock_of(key);
                self.ask_about(node, to, |account| Call::Pay { account, lock }, command)
            }
            Wish::Gets { node, from, key } => {
                let lock = lock_of(key);
                self.ask_about(node, from, |account| Call::Get { account, lock }, command)
            }
            Wish::GivesUp { node, from, key } => {
                let lock = lock_of(key);
                self.ask_about(
                    node,
                    from,
                    |account| Call::GiveUp { account, lock },
                    command,
                )
            }
        }
    }

    // What another does; `raws` are the bytes that the script sends.
    fn play_deed(&mut self, deed: Deed, raws: &[Vec<u8>]) -> Result<(), Trouble> {
        let command = Command::Deed(deed);
        match deed {
            Deed::Offers {
                from,
                to,
                promised,
                signed,
            } => {
                let payment = payment(promised);
                self.propose(from, to, Change::PassingOn, payment, signed, command)
            }
            Deed::Returns {
                from,
                to,
                key,
                signed,
            } => self.take_off(from, to, Change::GivingUp, key, signed, command),
            Deed::Settles {
                from,
                to,
                key,
                signed,
            } => self.take_off(from, to, Change::Paying, key, signed, command),
            Deed::Signs { from, to } => self.sign(from, to, command),
            Deed::Sends { from, to, raw } => match raws.get(raw) {
                Some(raw) => self.send_raw(from, to, raw.as_slice(), command),
                None => Ok(()),
            },
        }
    }

    fn play_showing(&mut self, showing: Showing) -> Result<(), Trouble> {
        let command = Command::Showing(showing);
        match showing {
            Showing::KeyTo { key, to } => self.key_to(key, to, command),
            Showing::ShowsSheet { by, of, number } => self.show_old(by, of, number, command),
            Showing::ShowsKey {
                key,
                first,
                second,
                ..
            } => self.show_key_for(key, first, second, command),
        }
    }

    // Looks, stops and starts.
    fn play_turn(&mut self, turn: Turn) -> Result<(), Trouble> {
        let command = Command::Turn(turn);
        match turn {
            Turn::Looks { node } => self.looks_by(node, command),
            Turn::LooksByHand { node } => self.set_looks(node, Looks::ByHand, command),
            Turn::LooksByItself { node } => self.set_looks(node, Looks::ByItself, command),
            Turn::MissesLooks { node, until } => {
                self.set_looks(node, Looks::ByHandUntil(until), command)
            }
            Turn::Stops { node } => self.stop(node, command),
            Turn::StopsAfter { node, acts, lost } => {
                let acts = acts as usize;
                self.stop_after(node, Cut { acts, lost }, command)
            }
            Turn::Starts { node } => self.start(node, command),
        }
    }

    // A line of the script, and the bytes that the script sends.
    pub(crate) fn play_step(&mut self, step: &Step, raws: &[Vec<u8>]) -> Result<(), Trouble> {
        self.scene.progress.line = Some(step.line);
        match step.command {
            Command::Deed(deed) => self.play_deed(deed, raws),
            Command::Wish(wish) => self.play_wish(wish),
            Command::Showing(showing) => self.play_showing(showing),
            Command::Turn(turn) => self.play_turn(turn),
            Command::Tick { tick } => self.go_to(tick),
            Command::Arrivals { at_once } => {
                self.scene.at_once = at_once;
                self.played(step.command, Answer::Taken)
            }
            Command::Show => self.show_all(),
        }
    }
}
