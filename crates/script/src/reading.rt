// Reading a script, line by line.
ghost use Rattle.std.specs.Prelude.{IfOk, IsSome};

use crate::commands::Parts;
use crate::forms::{Says, Setting};
use crate::matching::{Misfit, said_by};
use crate::pairs::check_accounts;
use crate::settings::{check_opening, check_party};
use crate::tokens::{tokens_of, word_at};
use crate::types::{Command, Deed, Fault, Opening, Party, ReadFault, Script, Step, Wrong};
use lines::{hex_bytes, part_at};
use schedule::Numbers;
use std::alloc::Global;

const LAST_TICK: u32 = 1_000_000;

const LONGEST: usize = 1_048_576;

// A script as far as it is read: `line` is the line that is being read, counted from 1, and `tick` the tick that the lines
// have come to.
#[derive(Drop)]
struct Reader {
    heap: Global,
    line: u32,
    tick: u32,
    numbers: Option<Numbers>,
    parties: Vec<Party>,
    openings: Vec<Opening>,
    steps: Vec<Step>,
    raws: Vec<Vec<u8>>,
}

impl Reader {
    fn new(heap: Global) -> Reader {
        Reader {
            heap,
            line: 0,
            tick: 0,
            numbers: None,
            parties: Vec::new(heap),
            openings: Vec::new(heap),
            steps: Vec::new(heap),
            raws: Vec::new(heap),
        }
    }

    // What is wrong with a word of the line.
    fn wrong(&self, word: usize, wrong: Wrong) -> ReadFault {
        Misfit { word, wrong }.in_line(self.line)
    }

    // The terms stand once, before all else that is played.
    fn take_terms(&mut self, parts: &Parts) -> Result<(), ReadFault> {
        if self.numbers.is_some() {
            return Err(self.wrong(0, Wrong::TermsTwice));
        }
        let [gap, window, delay, look] = parts.numbers;
        let numbers = Numbers::new(gap, window, delay, look).map_err(|small| Misfit::from(
            small,
        ).in_line(self.line))?;
        self.numbers = Some(numbers);
        Ok(())
    }

    fn take_party(&mut self, name: &[u8], is_node: bool) -> Result<(), ReadFault> {
        check_party(self.parties.as_slice(), name, is_node).map_err(|misfit| misfit.in_line(
            self.line,
        ))?;
        let name = Vec::from_slice(self.heap, name)?;
        self.parties.push(Party { name, is_node })?;
        Ok(())
    }

    fn take_account(&mut self, parts: &Parts) -> Result<(), ReadFault> {
        let [first, second, _] = parts.parties;
        let [first_put_in, second_put_in, _, _] = parts.numbers;
        let opening = Opening {
            first,
            second,
            first_put_in,
            second_put_in,
        };
        check_opening(self.parties.as_slice(), self.openings.as_slice(), opening).map_err(
            |misfit| misfit.in_line(self.line),
        )?;
        self.openings.push(opening)?;
        Ok(())
    }

    fn take_setting(
        &mut self,
        setting: Setting,
        parts: &Parts,
        text: &[u8],
    ) -> Result<(), ReadFault> {
        if !self.steps.is_empty() {
            return Err(self.wrong(0, Wrong::TermsLate));
        }
        match setting {
            Setting::Terms => self.take_terms(parts),
            Setting::Party { is_node } => self.take_party(word_at(text, 1), is_node),
            Setting::Account => self.take_account(parts),
        }
    }

    fn add_step(&mut self, command: Command) -> Result<(), ReadFault> {
        check_accounts(self.openings.as_slice(), &command).map_err(|misfit| misfit.in_line(
            self.line,
        ))?;
        self.steps.push(Step {
            line: self.line,
            command,
        })?;
        Ok(())
    }

    // Time goes on to a tick.
    fn take_tick(&mut self, tick: u32) -> Result<(), ReadFault> {
        if tick > LAST_TICK {
            return Err(self.wrong(1, Wrong::TickTooLarge));
        }
        if tick < self.tick {
            return Err(self.wrong(1, Wrong::TickBefore));
        }
        self.tick = tick;
        self.add_step(Command::Tick { tick })
    }

    fn check_hex(&self, text: &[u8], word: usize) -> Result<(), ReadFault> {
        if hex_bytes(self.heap, word_at(text, word))?.is_none() {
            return Err(self.wrong(word, Wrong::NotDigits));
        }
        Ok(())
    }

    // The words of a raw message: one, or a sheet and its signature.
    fn take_raw(&mut self, parts: &Parts, text: &[u8]) -> Result<(), ReadFault> {
        self.check_hex(text, 3)?;
        self.check_hex(text, 4)?;
        let mut raw = Vec::from_slice(self.heap, word_at(text, 3))?;
        raw.push(b' ')?;
        raw.extend_from_slice(word_at(text, 4))?;
        let number = self.raws.len();
        self.raws.push(raw)?;
        let [from, to, _] = parts.parties;
        self.add_step(Command::Deed(Deed::Sends {
            from,
            to,
            raw: number,
        }))
    }

    // One line, without its comment.
    fn take_line(&mut self, text: &[u8]) -> Result<(), ReadFault> {
        let tokens = tokens_of(self.heap, self.parties.as_slice(), text)?;
        if tokens.is_empty() {
            return Ok(());
        }
        let says = said_by(tokens.as_slice()).map_err(|misfit| misfit.in_line(self.line))?;
        let parts = Parts::of(tokens.as_slice());
        let [number, _, _, _] = parts.numbers;
        match says {
            Says::Setting(setting) => self.take_setting(setting, &parts, text),
            Says::Tick => self.take_tick(number),
            Says::Wait => self.take_tick(self.tick.saturating_add(number)),
            Says::Sends => self.take_raw(&parts, text),
            Says::Verb(verb) => self.add_step(verb.command(&parts)),
        }
    }

    // Takes all lines of a text.
    fn take_lines(&mut self, text: &[u8]) -> Result<(), ReadFault> {
        for (number, line) in (1..).zip(text.split(|b| *b == b'\n')) {
            self.line = number;
            self.take_line(part_at(line, b'#').text)?;
        }
        Ok(())
    }
}

// Something is wrong with the script as a whole.
fn wrong_whole(wrong: Wrong) -> ReadFault {
    ReadFault::Wrong(Fault {
        line: None,
        word: 0,
        wrong,
    })
}

// The script that a text writes, or what is wrong with it and where.
pub fn read_script(heap: Global, text: &[u8]) -> Result<Script, ReadFault>
    ensures { IfOk result (λ s. IsSome s.numbers) }
{
    if text.len() > LONGEST {
        return Err(wrong_whole(Wrong::TooLong));
    }
    let mut reader = Reader::new(heap);
    reader.take_lines(text)?;
    Ok(Script {
        numbers: Some(reader.numbers.ok_or(wrong_whole(Wrong::NoTerms))?),
        parties: reader.parties,
        openings: reader.openings,
        steps: reader.steps,
        raws: reader.raws,
    })
}
