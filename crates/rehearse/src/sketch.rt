// How each event is drawn: what stands in its row, if it has one.
use crate::cast::Cast;
use crate::lanes::Lanes;
use picture::Mark;
use refusal::Refusal;
use script::{Command, Deed, Promised, Showing, Turn, Wish};
use stage::{Answer, Event, Happening, InRegister, Letter, OfNode};
use std::alloc::{AllocError, Global};

// What the row of an event has.
#[derive(Drop)]
pub(crate) struct Sketch {
    pub(crate) mark: Mark,
    pub(crate) refused: bool,
    pub(crate) text: String,
}

// Who draws: the events are those of the whole rehearsal.
#[derive(Drop)]
pub(crate) struct Artist<'a> {
    pub(crate) cast: &'a Cast,
    pub(crate) events: &'a [Event],
    pub(crate) lanes: Lanes,
}

fn plain(mark: Mark, text: String) -> Sketch {
    Sketch {
        mark,
        refused: false,
        text,
    }
}

// A picture's words for a refusal, whose crate has a number for it and no words.
fn why(refusal: Refusal) -> &'static str {
    match refusal {
        Refusal::Unreadable => ": it can't be read (1)",
        Refusal::NotOpen => ": nothing is signed there (2)",
        Refusal::UnderWay => ": a sheet is under way (3)",
        Refusal::Mismatch => ": not one change of what is held (4)",
        Refusal::LockUsed => ": the lock was used (5)",
        Refusal::NotCovered => ": not covered (6)",
        Refusal::EndTooNear => ": the end is too near (7)",
        Refusal::KeyMissing => ": no key (8)",
        Refusal::KeyKnown => ": the key is known (8)",
        Refusal::OutStands => ": what was passed on may still count (9)",
        Refusal::TooLarge => ": too large (10)",
    }
}

// A mark and its text with the answer to what it draws.
fn answered(mark: Mark, mut text: String, answer: Answer) -> Result<Sketch, AllocError> {
    let (words, refused) = match answer {
        Answer::Taken => ("", false),
        Answer::Refused(refusal) => (why(refusal), true),
        Answer::Stopped => (": the node is stopped", false),
        Answer::NoSheet => (": there is no such sheet", false),
    };
    text.push_str(words)?;
    Ok(Sketch {
        mark,
        refused,
        text,
    })
}

// What is said after a proposal.
fn unsigned(signed: bool) -> &'static str {
    if signed { "" } else { ", unsigned" }
}

fn letter_text(heap: Global, letter: Letter) -> Result<String, AllocError> {
    match letter {
        Letter::Sheet { number } => format!(in heap; "signed sheet {number}"),
        Letter::Signature { number } => format!(in heap; "signature under sheet {number}"),
    }
}

// The place of an account's dispute among those of the rehearsal, in the order in which they were opened.
fn bar_of(events: &[Event], account: usize) -> usize {
    events
        .iter()
        .filter_map(|event| match event.what {
            Happening::Register(InRegister::Opened { account, .. }) => Some(account),
            _ => None,
        })
        .take_while(|opened| *opened != account)
        .count()
}

impl Artist<'_> {
    // What another says to a node.
    fn told(&self, deed: &Deed) -> Result<(Mark, String), AllocError> {
        let heap = self.cast.heap;
        match *deed {
            Deed::Offers {
                from,
                to,
                promised,
                signed,
            } => {
                let Promised { key, amount, end } = promised;
                let unsigned = unsigned(signed);
                let text = format!(in heap; "offers {amount}, key {key}, end {end}{unsigned}")?;
                Ok((self.lanes.arrow(from, to), text))
            }
            Deed::Returns {
                from,
                to,
                key,
                signed,
            } => {
                let unsigned = unsigned(signed);
                let text = format!(in heap; "returns key {key}{unsigned}")?;
                Ok((self.lanes.arrow(from, to), text))
            }
            Deed::Settles {
                from,
                to,
                key,
                signed,
            } => {
                let unsigned = unsigned(signed);
                let text = format!(in heap; "pays key {key}{unsigned}")?;
                Ok((self.lanes.arrow(from, to), text))
            }
            Deed::Signs { from, to } => {
                let text = String::from_str(heap, "signs")?;
                Ok((self.lanes.arrow(from, to), text))
            }
            Deed::Sends { from, to, .. } => {
                let text = String::from_str(heap, "sends bytes")?;
                Ok((self.lanes.arrow(from, to), text))
            }
        }
    }

    // What the owner of a node asks it for.
    fn asked(&self, wish: &Wish) -> Result<(Mark, String), AllocError> {
        let heap = self.cast.heap;
        match *wish {
            Wish::Passes {
                node,
                to,
                promised,
                ..
            } => {
                let Promised { key, amount, end } = promised;
                let to = self.cast.party(to);
                let text = format!(in heap;
                    "owner: pass on {amount}, key {key}, end {end}, to {to}"
                )?;
                Ok((self.lanes.note(node), text))
            }
            Wish::Pays { node, to, key } => {
                let to = self.cast.party(to);
                let text = format!(in heap; "owner: pay key {key} to {to}")?;
                Ok((self.lanes.note(node), text))
            }
            Wish::Gets { node, from, key } => {
                let from = self.cast.party(from);
                let text = format!(in heap; "owner: get key {key} from {from}")?;
                Ok((self.lanes.note(node), text))
            }
            Wish::GivesUp { node, from, key } => {
                let from = self.cast.party(from);
                let text = format!(in heap; "owner: give up key {key} of {from}")?;
                Ok((self.lanes.note(node), text))
            }
        }
    }

    // What another shows in the register, a key that comes to a node.
    fn shown(&self, showing: &Showing) -> Result<(Mark, String), AllocError> {
        let heap = self.cast.heap;
        match *showing {
            Showing::ShowsSheet { by, number, .. } => {
                let text = format!(in heap; "shows sheet {number}")?;
                Ok((self.lanes.to_register(by), text))
            }
            Showing::ShowsKey { by, key, .. } => {
                let text = format!(in heap; "shows key {key}")?;
                Ok((self.lanes.to_register(by), text))
            }
            Showing::KeyTo { key, to } => {
                let text = format!(in heap; "is told key {key}")?;
                Ok((self.lanes.note(to), text))
            }
        }
    }

    // What is drawn of a line of the script, if it is.
    fn commanded(&self, command: &Command) -> Result<Option<(Mark, String)>, AllocError> {
        let heap = self.cast.heap;
        match *command {
            Command::Deed(deed) => Ok(Some(self.told(&deed)?)),
            Command::Wish(wish) => Ok(Some(self.asked(&wish)?)),
            Command::Showing(showing) => Ok(Some(self.shown(&showing)?)),
            // looks that are left out
            Command::Turn(Turn::MissesLooks { node, until }) => {
                let text = format!(in heap; "doesn't look until tick {until}")?;
                Ok(Some((self.lanes.note(node), text)))
            }
            Command::Turn(_) | Command::Tick { .. } | Command::Arrivals { .. } | Command::Show =>
                Ok(None),
        }
    }

    // What happens in the register.
    fn in_register(&self, what: &InRegister) -> Result<Option<Sketch>, AllocError> {
        let heap = self.cast.heap;
        let lane = self.lanes.of_register();
        match *what {
            InRegister::Opened {
                account,
                number,
                until,
            } => {
                let pair = self.cast.pair(account);
                let bar = bar_of(self.events, account);
                let text = format!(in heap; "{pair}: dispute, sheet {number}, until {until}")?;
                Ok(Some(plain(Mark::BarBegins { lane, bar }, text)))
            }
            InRegister::Replaced {
                account,
                number,
                until,
            } => {
                let pair = self.cast.pair(account);
                let text = format!(in heap; "{pair}: now sheet {number}, until {until}")?;
                Ok(Some(plain(Mark::Note { lane }, text)))
            }
            InRegister::TurnedAway { account, number } => {
                let pair = self.cast.pair(account);
                let text = format!(in heap; "{pair}: sheet {number}")?;
                Ok(Some(Sketch {
                    mark: Mark::Note { lane },
                    refused: true,
                    text,
                }))
            }
            InRegister::Ended { account, number } => {
                let pair = self.cast.pair(account);
                let bar = bar_of(self.events, account);
                let text = format!(in heap; "{pair}: ended, sheet {number}")?;
                Ok(Some(plain(Mark::BarEnds { lane, bar }, text)))
            }
            InRegister::KeyCame { account, key } => {
                let pair = self.cast.pair(account);
                let key = self.cast.key(&key);
                let text = format!(in heap; "{pair}: key {key}")?;
                Ok(Some(plain(Mark::Key { lane }, text)))
            }
            InRegister::Page { .. } | InRegister::PageKey { .. } => Ok(None),
        }
    }

    // What a node shows and learns, and how it stops and starts.
    fn of_node(&self, what: &OfNode) -> Result<Sketch, AllocError> {
        let heap = self.cast.heap;
        match *what {
            OfNode::SheetShown { by, number, .. } => {
                let text = format!(in heap; "shows sheet {number}")?;
                Ok(plain(self.lanes.to_register(by), text))
            }
            OfNode::KeyShown { by, key, .. } => {
                let key = self.cast.key(&key);
                let text = format!(in heap; "shows key {key}")?;
                Ok(plain(self.lanes.to_register(by), text))
            }
            OfNode::Learned { node, key } => {
                let key = self.cast.key(&key);
                let lane = self.lanes.of_party(node);
                let text = format!(in heap; "learns key {key}")?;
                Ok(plain(Mark::Key { lane }, text))
            }
            OfNode::Missed { node, last } => {
                let text = format!(in heap; "too late: last look at tick {last}")?;
                Ok(plain(self.lanes.note(node), text))
            }
            OfNode::Stopped { node } => {
                let lane = self.lanes.of_party(node);
                let text = String::from_str(heap, "stopped")?;
                Ok(plain(Mark::Stop { lane }, text))
            }
            OfNode::Started { node } => {
                let lane = self.lanes.of_party(node);
                let text = String::from_str(heap, "started")?;
                Ok(plain(Mark::Start { lane }, text))
            }
        }
    }

    // How an event is drawn, if it is.
    pub(crate) fn sketch(&self, what: &Happening) -> Result<Option<Sketch>, AllocError> {
        let heap = self.cast.heap;
        match *what {
            Happening::Played { command, answer } => match self.commanded(&command)? {
                Some((mark, text)) => Ok(Some(answered(mark, text, answer)?)),
                None => Ok(None),
            },
            Happening::Sent { from, to, letter } => {
                let text = letter_text(heap, letter)?;
                Ok(Some(plain(self.lanes.arrow(from, to), text)))
            }
            // a message that a node took has its arrow already, by which it was sent
            Happening::Came {
                answer: Answer::Taken,
                ..
            } => Ok(None),
            Happening::Came {
                to,
                letter,
                answer,
                ..
            } => {
                let text = letter_text(heap, letter)?;
                Ok(Some(answered(self.lanes.note(to), text, answer)?))
            }
            // a look that was taken has no row; what came of it has
            Happening::Looked {
                node,
                answer: Answer::Refused(refusal),
            } => {
                let text = String::from_str(heap, "looks")?;
                let answer = Answer::Refused(refusal);
                Ok(Some(answered(self.lanes.note(node), text, answer)?))
            }
            Happening::Looked { .. } => Ok(None),
            Happening::Node(what) => Ok(Some(self.of_node(&what)?)),
            Happening::Register(what) => self.in_register(&what),
            Happening::Standing(_) | Happening::Outcome(_) => Ok(None),
        }
    }
}
