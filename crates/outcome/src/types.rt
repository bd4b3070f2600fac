// Why an entry gets no answer.

// Memory ran out, or a write, a sync or a sending failed. The program stops then.
#[derive(Clone, Copy, PartialEq, Eq, Debug)]
pub enum Fault {
    Memory,
    Failed,
}
