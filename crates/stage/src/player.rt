// A node in the rehearsal: the same node as the program's, and its file in memory.
use crate::types::{Answer, Trouble};
use journal::{Record, push_record};
use looking::{Shown, look};
use node_state::Node;
use plan::{Act, Plan};
use replay::{Replayed, replay};
use rules::{Call, Message, call, message};
use schedule::Terms;
use sheet::Sheet;
use std::alloc::{AllocError, Global};

// Where the node stops in the midst of its next entry.
#[derive(Clone, Copy)]
pub(crate) struct Cut {
    pub(crate) acts: usize,
    pub(crate) lost: bool,
}

// How a node looks: by itself, or only where the script says so, for good or before a tick.
#[derive(Clone, Copy)]
pub(crate) enum Looks {
    ByItself,
    ByHand,
    ByHandUntil(u32),
}

// `synced` is how much of the file outlasts a stop for certain. `looked` is the tick of the last look. `missed` says that it was
// told already that a look was missed.
#[derive(Drop)]
pub(crate) struct Player {
    pub(crate) party: usize,
    pub(crate) node: Node,
    pub(crate) file: Vec<u8>,
    pub(crate) synced: usize,
    pub(crate) running: bool,
    pub(crate) cut: Option<Cut>,
    pub(crate) looked: u32,
    pub(crate) looks: Looks,
    pub(crate) missed: bool,
}

// The record of an act, where it is one.
fn record_of(act: &Act) -> Option<Record> {
    match *act {
        Act::RecordSigned(_, sheet) => Some(Record::Signed(sheet)),
        Act::RecordBoth(_, sheet) => Some(Record::Both(sheet)),
        Act::RecordPassed(lock, route) => Some(Record::Passed {
            lock,
            from: route.from,
            to: route.to,
        }),
        Act::RecordKey(key) => Some(Record::Key(key)),
        _ => None,
    }
}

impl Player {
    // A node that has just been started for the first time, with no accounts yet.
    pub(crate) fn new(heap: Global, party: usize, terms: Terms) -> Result<Player, AllocError> {
        let node = Node::new(heap, terms)?;
        Ok(Player {
            party,
            node,
            file: Vec::new(heap),
            synced: 0,
            running: true,
            cut: None,
            looked: 0,
            looks: Looks::ByItself,
            missed: false,
        })
    }

    // One account more; its first sheet is recorded.
    pub(crate) fn open(&mut self, own: u32, theirs: u32) -> Result<u8, AllocError> {
        let number = (self.node.many() & 0xff) as u8;
        if self.node.open_account(own, theirs) {
            let first = Sheet::first(number, own, theirs);
            push_record(&mut self.file, &Record::Both(first))?;
            self.synced = self.file.len();
        }
        Ok(number)
    }

    // What the rules make of a call; its acts stand in the plan.
    pub(crate) fn ask(&mut self, plan: &mut Plan, asked: Call) -> Result<Answer, Trouble> {
        if !self.running {
            return Ok(Answer::Stopped);
        }
        Ok(call(&mut self.node, plan, asked)?.into())
    }

    pub(crate) fn tell(
        &mut self,
        plan: &mut Plan,
        account: u8,
        told: Message,
    ) -> Result<Answer, Trouble> {
        if !self.running {
            return Ok(Answer::Stopped);
        }
        Ok(message(&mut self.node, plan, u32::from(account), told)?.into())
    }

    pub(crate) fn look(
        &mut self,
        plan: &mut Plan,
        tick: u32,
        shown: &[Shown],
    ) -> Result<Answer, Trouble> {
        if !self.running {
            return Ok(Answer::Stopped);
        }
        let answer = look(&mut self.node, plan, tick, shown)?;
        self.looked = tick;
        self.missed = false;
        Ok(answer.into())
    }

    // Does the node look by itself at a tick, if it runs.
    pub(crate) fn looks_by_itself(&self, tick: u32) -> bool {
        match self.looks {
            Looks::ByItself => true,
            Looks::ByHand => false,
            Looks::ByHandUntil(until) => until <= tick,
        }
    }

    // The sheet with a number that the node has as its next or as held.
    pub(crate) fn sheet_of(&self, account: usize, number: u32) -> Option<Sheet> {
        let account = self.node.account(account);
        account
            .under_way()
            .into_iter()
            .chain([&account.held])
            .copied()
            .find(|sheet| sheet.number == number)
    }

    fn carry(&mut self, act: &Act) -> Result<(), AllocError> {
        if let Some(record) = record_of(act) {
            push_record(&mut self.file, &record)?;
        }
        if let Act::Sync = *act {
            self.synced = self.file.len();
        }
        Ok(())
    }

    // Records and syncs what these acts say.
    fn carry_all(&mut self, acts: &[Act]) -> Result<(), AllocError> {
        for act in acts {
            self.carry(act)?;
        }
        Ok(())
    }

    pub(crate) fn stop(&mut self, lost: bool) {
        self.running = false;
        self.cut = None;
        if lost {
            self.file.truncate(self.synced);
        }
    }

    // Carries out the acts of an entry as far as the node gets, all or up to where it stops, and gives those.
    pub(crate) fn carry_out<'a>(&mut self, acts: &'a [Act]) -> Result<&'a [Act], AllocError> {
        match self.cut {
            Some(cut) if !acts.is_empty() => {
                let done = &acts[..cut.acts.min(acts.len())];
                self.carry_all(done)?;
                self.stop(cut.lost);
                Ok(done)
            }
            _ => {
                self.carry_all(acts)?;
                Ok(acts)
            }
        }
    }

    // The node from its file, which is cut back to its last whole record.
    pub(crate) fn start(&mut self, heap: Global, terms: Terms) -> Result<(), Trouble> {
        let Replayed { node, whole, .. } = replay(heap, terms, self.file.as_slice())?;
        self.node = node;
        self.file.truncate(whole);
        self.synced = self.file.len();
        self.running = true;
        self.cut = None;
        Ok(())
    }
}
