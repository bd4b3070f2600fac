// What is counted, and why it can't be.

// The least that a node can come out with, what it put in, and how much more or less than that the least is.
#[derive(Clone, Copy, PartialEq, Eq, Debug)]
pub struct Count {
    pub least: u64,
    pub deposits: u64,
    pub difference: i64,
}

// The two sheets of this account, the first such, are not in order: no node by the rules has such sheets.
#[derive(Clone, Copy, PartialEq, Eq, Debug)]
pub struct Disorder {
    pub account: usize,
}
