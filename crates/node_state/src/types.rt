// What a node keeps of a lock that was passed on.

// From which account to which a lock was passed on.
#[derive(Clone, Copy, PartialEq, Eq, Debug)]
pub struct Route {
    pub from: u8,
    pub to: u8,
}
