// How what happens is named in lines of output.
use stage::Answer;
use std::fmt;

// The two parties of an account.
#[derive(Clone, Copy)]
pub(crate) struct Pair<'a> {
    pub(crate) first: &'a str,
    pub(crate) second: &'a str,
}

impl fmt::Display for Pair<'_> {
    fn fmt<W: fmt::Write>(&self, f: &mut fmt::Formatter<W>) -> fmt::Result {
        let Pair { first, second } = *self;
        write!(f, "{first} and {second}")
    }
}

// A node with its neighbour in an account.
#[derive(Clone, Copy)]
pub(crate) struct Side<'a> {
    pub(crate) node: &'a str,
    pub(crate) neighbour: &'a str,
}

impl fmt::Display for Side<'_> {
    fn fmt<W: fmt::Write>(&self, f: &mut fmt::Formatter<W>) -> fmt::Result {
        let Side { node, neighbour } = *self;
        write!(f, "{node} with {neighbour}")
    }
}

// A key or a lock: the number of the key, or 32 bytes where there is none.
#[derive(Clone, Copy)]
pub(crate) enum Name {
    Number(u32),
    Bytes([u8; 32]),
}

// Eight bytes at a time: written one by one, they took twice as long as all else of a line.
fn write_hex<W: fmt::Write>(f: &mut fmt::Formatter<W>, bytes: &[u8; 32]) -> fmt::Result {
    let (parts, _) = bytes.as_chunks::<8>();
    for part in parts {
        let number = u64::from_be_bytes(*part);
        write!(f, "{number:016x}")?;
    }
    Ok(())
}

impl fmt::Display for Name {
    fn fmt<W: fmt::Write>(&self, f: &mut fmt::Formatter<W>) -> fmt::Result {
        match *self {
            Name::Number(n) => write!(f, "{n}"),
            Name::Bytes(bytes) => write_hex(f, &bytes),
        }
    }
}

// An answer as it is told.
#[derive(Clone, Copy)]
pub(crate) struct Said(pub(crate) Answer);

impl fmt::Display for Said {
    fn fmt<W: fmt::Write>(&self, f: &mut fmt::Formatter<W>) -> fmt::Result {
        match self.0 {
            Answer::Taken => write!(f, "ok"),
            Answer::Refused(refusal) => {
                let number = refusal.number();
                write!(f, "no {number}")
            }
            Answer::Stopped => write!(f, "stopped"),
            Answer::NoSheet => write!(f, "no such sheet"),
        }
    }
}
