// What happens in a rehearsal, one thing after the other.
ghost use Rattle.std.specs.Prelude.{◌≡◌};
ghost use Rattle.std.specs.Result.{MatchResult};
ghost use Rattle.stage.specs.declared.types.Answer.TheVariants.{Taken, Refused};

use refusal::Refusal;
use register::Phase;
use script::Command;
use sheet::Sheet;

// What became of something that was to be done.
#[derive(Clone, Copy)]
pub enum Answer {
    Taken,
    Refused(Refusal),
    // the node is stopped, or stopped in the midst of it: no answer
    Stopped,
    // there is no such sheet: a change that the held sheet doesn't allow, or a sheet that the node never signed
    NoSheet,
}

impl From<Result<(), Refusal>> for Answer {
    ghost from_gives = { λ answer r. MatchResult answer (λ _. r ≡ Taken) (λ refusal. r ≡ Refused refusal) };

    fn from(answer: Result<(), Refusal>) -> Answer {
        match answer {
            Ok(()) => Answer::Taken,
            Err(refusal) => Answer::Refused(refusal),
        }
    }
}

// A message of a node, by what it has in it.
#[derive(Clone, Copy)]
pub enum Letter {
    // a sheet with the node's signature under it
    Sheet { number: u32 },
    Signature { number: u32 },
}

// How an account of a node was ended, or why it is not.
#[derive(Clone, Copy)]
pub enum Ending {
    ByDispute { paid: u64 },
    ByAgreement { paid: u64 },
    NotSettled,
}

impl Ending {
    // What the node got, where the account was ended.
    pub(crate) fn paid(self) -> Option<u64> {
        match self {
            Ending::ByDispute { paid } | Ending::ByAgreement { paid } => Some(paid),
            Ending::NotSettled => None,
        }
    }
}

// What happens in the register, and what it has at `show`. Accounts go by their numbers in the script.
#[derive(Clone, Copy)]
pub enum InRegister {
    Opened {
        account: usize,
        number: u32,
        until: u64,
    },
    Replaced {
        account: usize,
        number: u32,
        until: u64,
    },
    TurnedAway {
        account: usize,
        number: u32,
    },
    Ended {
        account: usize,
        number: u32,
    },
    KeyCame {
        account: usize,
        key: [u8; 32],
    },
    Page {
        account: usize,
        phase: Phase,
    },
    PageKey {
        account: usize,
        key: [u8; 32],
        tick: u32,
    },
}

// What a node does, by itself or as it is told. Parties go by their numbers in the script.
#[derive(Clone, Copy)]
pub enum OfNode {
    // sends a sheet or a key to the register
    SheetShown {
        by: usize,
        account: usize,
        number: u32,
    },
    KeyShown {
        by: usize,
        account: usize,
        key: [u8; 32],
    },
    // has a key from now on
    Learned {
        node: usize,
        key: [u8; 32],
    },
    // hasn't looked for longer than it may: the promise doesn't cover what follows
    Missed {
        node: usize,
        last: u32,
    },
    Stopped {
        node: usize,
    },
    Started {
        node: usize,
    },
}

// What a node has for an account, at `show`.
#[derive(Clone, Copy)]
pub enum Standing {
    Held {
        node: usize,
        account: usize,
        sheet: Sheet,
        frozen: bool,
    },
    Next {
        node: usize,
        account: usize,
        sheet: Sheet,
    },
}

// What a node comes out with at the end.
#[derive(Clone, Copy)]
pub enum Outcome {
    Result {
        node: usize,
        account: usize,
        put_in: u32,
        ending: Ending,
    },
    // `came_out` is of the accounts that are settled; `settled` says whether all of them are
    Total {
        node: usize,
        put_in: u64,
        came_out: u64,
        settled: bool,
    },
}

#[derive(Clone, Copy)]
pub enum Happening {
    // a line of the script was played
    Played {
        command: Command,
        answer: Answer,
    },
    // a node sends a message to its neighbour; a message of a node comes to another node
    Sent {
        from: usize,
        to: usize,
        letter: Letter,
    },
    Came {
        from: usize,
        to: usize,
        letter: Letter,
        answer: Answer,
    },
    Looked {
        node: usize,
        answer: Answer,
    },
    Node(OfNode),
    Register(InRegister),
    Standing(Standing),
    Outcome(Outcome),
}

// Something that happens, its tick, and the line of the script that was being played, counted from 1; none before the first.
#[derive(Clone, Copy)]
pub struct Event {
    pub tick: u32,
    pub line: Option<u32>,
    pub what: Happening,
}

// Why a rehearsal could not go on: memory ran out, an act failed, or a node could not be started from its records.
#[derive(Clone, Copy, Debug)]
pub enum Trouble {
    Memory,
    Failed,
    Damaged,
}
