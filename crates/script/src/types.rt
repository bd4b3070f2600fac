// What a script says, and what can be wrong with one.
use schedule::Numbers;

// Somebody in the script: a node that keeps the rules, or another, who does what the script says.
#[derive(Drop)]
pub struct Party {
    pub name: Vec<u8>,
    pub is_node: bool,
}

// An account of two parties, and what each of them put in.
#[derive(Clone, Copy, PartialEq, Eq, Debug)]
pub struct Opening {
    pub first: usize,
    pub second: usize,
    pub first_put_in: u32,
    pub second_put_in: u32,
}

// A conditional payment as a line names it: the number of its key, its amount and its end.
#[derive(Clone, Copy, PartialEq, Eq, Debug)]
pub struct Promised {
    pub key: u32,
    pub amount: u32,
    pub end: u32,
}

// What another does with a node. Parties are numbered in the order in which they were named.
#[derive(Clone, Copy, PartialEq, Eq, Debug)]
pub enum Deed {
    // proposes a sheet to the node, with its signature or without
    Offers {
        from: usize,
        to: usize,
        promised: Promised,
        signed: bool,
    },
    Returns {
        from: usize,
        to: usize,
        key: u32,
        signed: bool,
    },
    Settles {
        from: usize,
        to: usize,
        key: u32,
        signed: bool,
    },
    // signs what the node has as its next
    Signs {
        from: usize,
        to: usize,
    },
    // sends bytes as a message, by their number among those of the script
    Sends {
        from: usize,
        to: usize,
        raw: usize,
    },
}

// What the owner of a node asks it for.
#[derive(Clone, Copy, PartialEq, Eq, Debug)]
pub enum Wish {
    Passes {
        node: usize,
        from: usize,
        to: usize,
        promised: Promised,
    },
    Pays {
        node: usize,
        to: usize,
        key: u32,
    },
    Gets {
        node: usize,
        from: usize,
        key: u32,
    },
    GivesUp {
        node: usize,
        from: usize,
        key: u32,
    },
}

// What is shown.
#[derive(Clone, Copy, PartialEq, Eq, Debug)]
pub enum Showing {
    // a key comes to a node as a message
    KeyTo {
        key: u32,
        to: usize,
    },
    // another shows a sheet that the node has signed, or a key for an account, in the register
    ShowsSheet {
        by: usize,
        of: usize,
        number: u32,
    },
    ShowsKey {
        by: usize,
        key: u32,
        first: usize,
        second: usize,
    },
}

// How a node looks, stops and starts.
#[derive(Clone, Copy, PartialEq, Eq, Debug)]
pub enum Turn {
    Looks { node: usize },
    LooksByHand { node: usize },
    LooksByItself { node: usize },
    MissesLooks { node: usize, until: u32 },
    Stops { node: usize },
    // in its next entry, after so many acts; what isn't synced is lost or kept
    StopsAfter { node: usize, acts: u32, lost: bool },
    Starts { node: usize },
}

// What a line of the play says.
#[derive(Clone, Copy, PartialEq, Eq, Debug)]
pub enum Command {
    Deed(Deed),
    Wish(Wish),
    Showing(Showing),
    Turn(Turn),
    // time goes on
    Tick { tick: u32 },
    // does what nodes send to the register arrive at once, or as late as it may
    Arrivals { at_once: bool },
    Show,
}

// A command, and its line, counted from 1.
#[derive(Clone, Copy)]
pub struct Step {
    pub line: u32,
    pub command: Command,
}

// A whole script; one that is read has terms. `raws` are the messages that are sent as bytes, as words of hexadecimal digits:
// a command has the number of its bytes, so that it can be copied into what is told of it.
#[derive(Drop)]
pub struct Script {
    pub numbers: Option<Numbers>,
    pub parties: Vec<Party>,
    pub openings: Vec<Opening>,
    pub steps: Vec<Step>,
    pub raws: Vec<Vec<u8>>,
}

// What is wrong with a word of a line, or with the script as a whole.
#[derive(Clone, Copy, PartialEq, Eq, Debug)]
pub enum Wrong {
    CannotStand,
    EndsEarly,
    NotANumber,
    TooLarge,
    NotDigits,
    NoParty,
    NotANode,
    IsANode,
    NameTaken,
    NotAName,
    TooManyNodes,
    TooManyParties,
    TooManyAccounts,
    AccountTwice,
    AccountWithItself,
    AccountWithoutNode,
    NoAccount,
    DepositsTooLarge,
    TermsTwice,
    TermsLate,
    LookBelowOne,
    WindowTooShort,
    GapTooShort,
    TickBefore,
    TickTooLarge,
    NoTerms,
    TooLong,
}

// What is wrong, in which line, counted from 1, and at which word, counted from 0; in no line where it is the whole script.
#[derive(Clone, Copy, PartialEq, Eq, Debug)]
pub struct Fault {
    pub line: Option<u32>,
    pub word: usize,
    pub wrong: Wrong,
}

// Why there is no script: memory ran out, or something is wrong in it.
#[derive(Clone, Copy, PartialEq, Eq, Debug)]
pub enum ReadFault {
    Memory,
    Wrong(Fault),
}
