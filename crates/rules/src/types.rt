// What the node is told.
use judgement::Signature;
use sheet::{Payment, Sheet};

// A message of a neighbour, or of anybody: sheets are in the sender's view.
#[derive(Clone, Copy)]
pub enum Message {
    Proposed(Sheet),
    ProposedSigned(Sheet, Signature),
    Signed(Signature),
    Key([u8; 32]),
}

// What the owner asks for.
#[derive(Clone, Copy)]
pub enum Call {
    Pass {
        from: u32,
        to: u32,
        payment: Payment,
    },
    Pay {
        account: u32,
        lock: [u8; 32],
    },
    Get {
        account: u32,
        lock: [u8; 32],
    },
    GiveUp {
        account: u32,
        lock: [u8; 32],
    },
}
