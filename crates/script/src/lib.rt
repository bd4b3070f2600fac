// Scripts of a rehearsal: who is in it, and what happens, line by line.
// Promises: a text is read to the end or refused at a word, before anything is played. Leans on lines and schedule.
#![tactic(auto)]

mod commands;
mod faults;
mod forms;
mod matching;
mod pairs;
mod reading;
mod settings;
mod tokens;
mod types;
mod words;

pub use reading::read_script;
pub use tokens::word_at;
pub use types::{
    Command, Deed, Fault, Opening, Party, Promised, ReadFault, Script, Showing, Step, Turn, Wish,
    Wrong,
};
