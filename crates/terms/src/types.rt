// What a text of terms says, and what can be wrong with it.
use schedule::Terms;

// What the two put into an account at the start.
#[derive(Clone, Copy, PartialEq, Eq, Debug, Default)]
pub struct Deposits {
    pub own: u32,
    pub theirs: u32,
}

// The deposits of up to 16 accounts, in order; what stands past the count is of no matter. Not the library's ArrayVec, which can't be copied: terms can.
#[derive(Clone, Copy)]
pub struct DepositList {
    pub list: [Deposits; 16],
    pub count: usize,
}

// What one line says.
#[derive(Clone, Copy)]
pub enum Entry {
    Nothing,
    Gap(u32),
    Window(u32),
    Delay(u32),
    Look(u32),
    Account(Deposits),
}

// What is wrong with a line, or with all of them together.
#[derive(Clone, Copy, PartialEq, Eq, Debug)]
pub enum Wrong {
    // more than 1 MiB of text
    TooLong,
    NotUnderstood,
    NumberTooLarge,
    Twice,
    TooManyAccounts,
    DepositsTooLarge,
    NoGap,
    NoWindow,
    NoDelay,
    NoLook,
    NoAccount,
    LookBelowOne,
    WindowTooShort,
    GapTooShort,
}

// What is wrong, and in which line, counted from 1; None where no one line has it.
#[derive(Clone, Copy, PartialEq, Eq, Debug)]
pub struct Fault {
    pub line: Option<usize>,
    pub wrong: Wrong,
}

// A number with the line that it stands in.
#[derive(Clone, Copy)]
pub struct Placed {
    pub value: u32,
    pub line: usize,
}

// What the lines have said so far: the deposits are those of the accounts in order.
#[derive(Clone, Copy)]
pub struct Draft {
    pub gap: Option<Placed>,
    pub window: Option<Placed>,
    pub delay: Option<Placed>,
    pub look: Option<Placed>,
    pub deposits: DepositList,
}

// Terms that hold, and the deposits of the accounts in order.
#[derive(Clone, Copy)]
pub struct Agreed {
    pub terms: Terms,
    pub deposits: DepositList,
}
