// The forms that a line can have.
use crate::words::Keyword;

// What has to stand at a place of a line.
#[derive(Clone, Copy)]
pub(crate) enum Slot {
    Is(Keyword),
    Number,
    Party,
    Node,
    Other,
    Name,
    Digits,
}

// What is said before the play.
#[derive(Clone, Copy)]
pub(crate) enum Setting {
    Terms,
    Party { is_node: bool },
    Account,
}

// What somebody does, or is asked to do. `Pays` is a call of a node's owner, or a proposal of another, by who stands first.
#[derive(Clone, Copy)]
pub(crate) enum Verb {
    Offers { signed: bool },
    Returns { signed: bool },
    Pays,
    PaysUnsigned,
    Signs,
    Passes,
    Gets,
    GivesUp,
    KeyTo,
    ShowsSheet,
    ShowsKey,
    Looks,
    LooksByHand,
    LooksByItself,
    MissesLooks,
    Arrivals { at_once: bool },
    Stops,
    StopsAfter { lost: bool },
    Starts,
    Show,
}

// What a line says.
#[derive(Clone, Copy)]
pub(crate) enum Says {
    Setting(Setting),
    Tick,
    Wait,
    Sends,
    Verb(Verb),
}

// A form: what a line of it says, and what has to stand at each of its places.
#[derive(Clone, Copy)]
pub(crate) struct Form {
    pub(crate) says: Says,
    pub(crate) slots: &'static [Slot],
}

pub(crate) const FORMS: [Form; 34] = [
    Form {
        says: Says::Setting(Setting::Terms),
        slots: &[
            Slot::Is(Keyword::Terms),
            Slot::Is(Keyword::Gap),
            Slot::Number,
            Slot::Is(Keyword::Window),
            Slot::Number,
            Slot::Is(Keyword::Delay),
            Slot::Number,
            Slot::Is(Keyword::Look),
            Slot::Number,
        ],
    },
    Form {
        says: Says::Setting(Setting::Party { is_node: true }),
        slots: &[Slot::Is(Keyword::Node), Slot::Name],
    },
    Form {
        says: Says::Setting(Setting::Party { is_node: false }),
        slots: &[Slot::Is(Keyword::Other), Slot::Name],
    },
    Form {
        says: Says::Setting(Setting::Account),
        slots: &[
            Slot::Is(Keyword::Account),
            Slot::Party,
            Slot::Party,
            Slot::Number,
            Slot::Number,
        ],
    },
    Form {
        says: Says::Verb(Verb::Offers { signed: true }),
        slots: &[
            Slot::Other,
            Slot::Is(Keyword::Offers),
            Slot::Node,
            Slot::Is(Keyword::Key),
            Slot::Number,
            Slot::Is(Keyword::Amount),
            Slot::Number,
            Slot::Is(Keyword::End),
            Slot::Number,
        ],
    },
    Form {
        says: Says::Verb(Verb::Offers { signed: false }),
        slots: &[
            Slot::Other,
            Slot::Is(Keyword::Offers),
            Slot::Node,
            Slot::Is(Keyword::Key),
            Slot::Number,
            Slot::Is(Keyword::Amount),
            Slot::Number,
            Slot::Is(Keyword::End),
            Slot::Number,
            Slot::Is(Keyword::Unsigned),
        ],
    },
    Form {
        says: Says::Verb(Verb::Returns { signed: true }),
        slots: &[
            Slot::Other,
            Slot::Is(Keyword::Returns),
            Slot::Node,
            Slot::Is(Keyword::Key),
            Slot::Number,
        ],
    },
    Form {
        says: Says::Verb(Verb::Returns { signed: false }),
        slots: &[
            Slot::Other,
            Slot::Is(Keyword::Returns),
            Slot::Node,
            Slot::Is(Keyword::Key),
            Slot::Number,
            Slot::Is(Keyword::Unsigned),
        ],
    },
    Form {
        says: Says::Verb(Verb::Pays),
        slots: &[
            Slot::Party,
            Slot::Is(Keyword::Pays),
            Slot::Party,
            Slot::Is(Keyword::Key),
            Slot::Number,
        ],
    },
    Form {
        says: Says::Verb(Verb::PaysUnsigned),
        slots: &[
            Slot::Other,
            Slot::Is(Keyword::Pays),
            Slot::Node,
            Slot::Is(Keyword::Key),
            Slot::Number,
            Slot::Is(Keyword::Unsigned),
        ],
    },
    Form {
        says: Says::Verb(Verb::Signs),
        slots: &[Slot::Other, Slot::Is(Keyword::Signs), Slot::Node],
    },
    Form {
        says: Says::Verb(Verb::Passes),
        slots: &[
            Slot::Node,
            Slot::Is(Keyword::Passes),
            Slot::Is(Keyword::Key),
            Slot::Number,
            Slot::Is(Keyword::From),
            Slot::Party,
            Slot::Is(Keyword::To),
            Slot::Party,
            Slot::Is(Keyword::Amount),
            Slot::Number,
            Slot::Is(Keyword::End),
            Slot::Number,
        ],
    },
    Form {
        says: Says::Verb(Verb::Gets),
        slots: &[
            Slot::Node,
            Slot::Is(Keyword::Gets),
            Slot::Party,
            Slot::Is(Keyword::Key),
            Slot::Number,
        ],
    },
    Form {
        says: Says::Verb(Verb::GivesUp),
        slots: &[
            Slot::Node,
            Slot::Is(Keyword::Gives),
            Slot::Is(Keyword::Up),
            Slot::Party,
            Slot::Is(Keyword::Key),
            Slot::Number,
        ],
    },
    Form {
        says: Says::Verb(Verb::KeyTo),
        slots: &[
            Slot::Is(Keyword::Key),
            Slot::Number,
            Slot::Is(Keyword::To),
            Slot::Node,
        ],
    },
    Form {
        says: Says::Verb(Verb::ShowsSheet),
        slots: &[
            Slot::Other,
            Slot::Is(Keyword::Shows),
            Slot::Node,
            Slot::Number,
        ],
    },
    Form {
        says: Says::Verb(Verb::ShowsKey),
        slots: &[
            Slot::Party,
            Slot::Is(Keyword::Shows),
            Slot::Is(Keyword::Key),
            Slot::Number,
            Slot::Is(Keyword::For),
            Slot::Party,
            Slot::Party,
        ],
    },
    Form {
        says: Says::Tick,
        slots: &[Slot::Is(Keyword::Tick), Slot::Number],
    },
    Form {
        says: Says::Wait,
        slots: &[Slot::Is(Keyword::Wait), Slot::Number],
    },
    Form {
        says: Says::Verb(Verb::Looks),
        slots: &[Slot::Node, Slot::Is(Keyword::Looks)],
    },
    Form {
        says: Says::Verb(Verb::LooksByHand),
        slots: &[
            Slot::Node,
            Slot::Is(Keyword::Looks),
            Slot::Is(Keyword::By),
            Slot::Is(Keyword::Hand),
        ],
    },
    Form {
        says: Says::Verb(Verb::LooksByItself),
        slots: &[
            Slot::Node,
            Slot::Is(Keyword::Looks),
            Slot::Is(Keyword::By),
            Slot::Is(Keyword::Itself),
        ],
    },
    Form {
        says: Says::Verb(Verb::MissesLooks),
        slots: &[
            Slot::Node,
            Slot::Is(Keyword::Misses),
            Slot::Is(Keyword::Looks),
            Slot::Is(Keyword::Until),
            Slot::Number,
        ],
    },
    Form {
        says: Says::Verb(Verb::Arrivals { at_once: true }),
        slots: &[Slot::Is(Keyword::Arrivals), Slot::Is(Keyword::Now)],
    },
    Form {
        says: Says::Verb(Verb::Arrivals { at_once: false }),
        slots: &[Slot::Is(Keyword::Arrivals), Slot::Is(Keyword::Late)],
    },
    Form {
        says: Says::Verb(Verb::Stops),
        slots: &[Slot::Node, Slot::Is(Keyword::Stops)],
    },
    Form {
        says: Says::Verb(Verb::StopsAfter { lost: false }),
        slots: &[
            Slot::Node,
            Slot::Is(Keyword::Stops),
            Slot::Is(Keyword::After),
            Slot::Number,
            Slot::Is(Keyword::Act),
        ],
    },
    Form {
        says: Says::Verb(Verb::StopsAfter { lost: false }),
        slots: &[
            Slot::Node,
            Slot::Is(Keyword::Stops),
            Slot::Is(Keyword::After),
            Slot::Number,
            Slot::Is(Keyword::Acts),
        ],
    },
    Form {
        says: Says::Verb(Verb::StopsAfter { lost: true }),
        slots: &[
            Slot::Node,
            Slot::Is(Keyword::Stops),
            Slot::Is(Keyword::After),
            Slot::Number,
            Slot::Is(Keyword::Act),
            Slot::Is(Keyword::Losing),
            Slot::Is(Keyword::Unsynced),
        ],
    },
    Form {
        says: Says::Verb(Verb::StopsAfter { lost: true }),
        slots: &[
            Slot::Node,
            Slot::Is(Keyword::Stops),
            Slot::Is(Keyword::After),
            Slot::Number,
            Slot::Is(Keyword::Acts),
            Slot::Is(Keyword::Losing),
            Slot::Is(Keyword::Unsynced),
        ],
    },
    Form {
        says: Says::Verb(Verb::Starts),
        slots: &[Slot::Node, Slot::Is(Keyword::Starts)],
    },
    Form {
        says: Says::Sends,
        slots: &[
            Slot::Other,
            Slot::Is(Keyword::Sends),
            Slot::Node,
            Slot::Digits,
        ],
    },
    Form {
        says: Says::Sends,
        slots: &[
            Slot::Other,
            Slot::Is(Keyword::Sends),
            Slot::Node,
            Slot::Digits,
            Slot::Digits,
        ],
    },
    Form {
        says: Says::Verb(Verb::Show),
        slots: &[Slot::Is(Keyword::Show)],
    },
];
