// What is to be done, one act after the other.
use node_state::Route;
use sheet::Sheet;

#[derive(Clone, Copy)]
pub enum Act {
    // records are appended to the file: the node has signed the next of an account; both have
    RecordSigned(usize, Sheet),
    RecordBoth(usize, Sheet),
    RecordPassed([u8; 32], Route),
    RecordKey([u8; 32]),
    // the file is synced
    Sync,
    // to the neighbour of an account: a sheet with the node's signature under it, or that alone
    SendSheet(usize, Sheet),
    SendSignature(usize, u32),
    // to the register, for an account
    ShowSheet(usize, Sheet),
    ShowKey(usize, [u8; 32]),
}

// The acts of one entry, in their order, to be carried out by the program.
#[derive(Drop)]
pub struct Plan {
    pub acts: Vec<Act>,
}
