// What comes of a start.
use node_state::Node;

// The node that a file's records make; how many bytes they take, which the file is cut back to; how many first sheets
// there are; and whether other records come after them.
#[derive(Drop)]
pub struct Replayed {
    pub node: Node,
    pub whole: usize,
    pub firsts: usize,
    pub others: bool,
}

// Why there is no node: memory ran out, or the record at a place can't be one that the node wrote there.
#[derive(Clone, Copy, PartialEq, Eq, Debug)]
pub enum StartFault {
    Memory,
    Damaged { at: usize },
}
