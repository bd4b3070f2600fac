// What a script calls things.
use crate::names::{Name, Pair, Side};
use lines::part_at;
use script::{Command, Deed, Script, Showing, Wish};
use small_keys::lock_of;
use std::alloc::{AllocError, Global};
use std::str;

// The number of a key, and its lock.
#[derive(Clone, Copy)]
struct NamedLock {
    number: u32,
    lock: [u8; 32],
}

// A script with its text, the names of its parties, and the locks of the keys that it names.
#[derive(Drop)]
pub(crate) struct Cast {
    pub(crate) heap: Global,
    pub(crate) script: Script,
    text: Vec<u8>,
    names: Vec<String>,
    locks: Vec<NamedLock>,
}

// The names of a script's parties, as text. All of a name that was read is ASCII.
fn names_of(heap: Global, script: &Script) -> Result<Vec<String>, AllocError> {
    let mut names = Vec::new(heap);
    for party in script.parties.iter() {
        let name = str::from_utf8(party.name.as_slice()).unwrap_or("");
        names.push(String::from_str(heap, name)?)?;
    }
    Ok(names)
}

// The key that a command names.
fn key_in(command: &Command) -> Option<u32> {
    match *command {
        Command::Deed(Deed::Offers { promised, .. })
        | Command::Wish(Wish::Passes { promised, .. }) => { Some(promised.key) }
        Command::Showing(Showing::KeyTo { key, .. } | Showing::ShowsKey { key, .. }) => Some(key),
        _ => None,
    }
}

// The locks of the keys that a script names.
fn locks_of(heap: Global, script: &Script) -> Result<Vec<NamedLock>, AllocError> {
    let mut locks: Vec<NamedLock> = Vec::new(heap);
    for step in script.steps.iter() {
        if let Some(number) = key_in(&step.command) {
            if locks.iter().all(|named| named.number != number) {
                let lock = lock_of(number);
                locks.push(NamedLock { number, lock })?;
            }
        }
    }
    Ok(locks)
}

// A line of a text, counted from 1, without its comment.
pub(crate) fn line_at(text: &[u8], line: Option<u32>) -> &[u8] {
    let Some(line) = line else {
        return &[];
    };
    let before = line.saturating_sub(1) as usize;
    match text.split(|b| *b == b'\n').nth(before) {
        Some(found) => part_at(found, b'#').text,
        None => &[],
    }
}

// The number that a key stands for, where it is one.
fn key_number(key: &[u8; 32]) -> Option<u32> {
    if key[..28].iter().any(|b| *b != 0) {
        return None;
    }
    Some(u32::from_be_bytes([key[28], key[29], key[30], key[31]]))
}

impl Cast {
    pub(crate) fn new(heap: Global, script: Script, text: Vec<u8>) -> Result<Cast, AllocError> {
        let names = names_of(heap, &script)?;
        let locks = locks_of(heap, &script)?;
        Ok(Cast {
            heap,
            script,
            text,
            names,
            locks,
        })
    }

    pub(crate) fn party(&self, party: usize) -> &str {
        match self.names.get(party) {
            Some(name) => name.as_str(),
            None => "",
        }
    }

    // The parties of an account.
    pub(crate) fn pair(&self, account: usize) -> Pair<'_> {
        match self.script.openings.get(account) {
            Some(opening) => Pair {
                first: self.party(opening.first),
                second: self.party(opening.second),
            },
            None => Pair {
                first: "",
                second: "",
            },
        }
    }

    // A node, and the party that its account is with.
    pub(crate) fn side(&self, node: usize, account: usize) -> Side<'_> {
        let neighbour = match self.script.openings.get(account) {
            Some(opening) if opening.first == node => self.party(opening.second),
            Some(opening) => self.party(opening.first),
            None => "",
        };
        Side {
            node: self.party(node),
            neighbour,
        }
    }

    pub(crate) fn key(&self, key: &[u8; 32]) -> Name {
        match key_number(key) {
            Some(number) => Name::Number(number),
            None => Name::Bytes(*key),
        }
    }

    // A lock goes by the number of its key.
    pub(crate) fn lock(&self, lock: &[u8; 32]) -> Name {
        match self.locks.iter().find(|named| named.lock == *lock) {
            Some(named) => Name::Number(named.number),
            None => Name::Bytes(*lock),
        }
    }

    // The words of a line of the script, with one space between them. All words of a line that is played are ASCII.
    pub(crate) fn push_line(&self, out: &mut String, line: Option<u32>) -> Result<(), AllocError> {
        let words = line_at(self.text.as_slice(), line)
            .split(|b| *b == b' ')
            .filter(|word| !word.is_empty());
        for (at, word) in words.enumerate() {
            if at > 0 {
                out.push_str(" ")?;
            }
            out.push_str(str::from_utf8(word).unwrap_or(""))?;
        }
        Ok(())
    }
}
