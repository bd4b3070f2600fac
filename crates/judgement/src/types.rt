// A signature as a value.

// A signature as it comes in a message: the sender's number for the account, and the number of the sheet.
#[derive(Clone, Copy, PartialEq, Eq, Debug)]
pub struct Signature {
    pub account: u8,
    pub number: u32,
}
