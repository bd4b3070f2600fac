// What the lines have said so far, and the terms that come of it.
ghost use Rattle.std.specs.Prelude.{◌≡◌, ◌≤◌, length, Some, Ok, Err};
ghost use Rattle.lines.specs.Lines.{parts};
ghost use Rattle.terms.specs.Reading.{placed_once, said, said_by, line_says, all_say, empty, agreed};

use crate::entries::entry_of;
use crate::types::{Agreed, DepositList, Deposits, Draft, Entry, Fault, Placed, Wrong};
use schedule::{Numbers, TooSmall};

// The number of a word, which stands once.
fn once(before: Option<Placed>, line: usize, value: u32) -> Result<Option<Placed>, Fault>
    ensures { result ≡ placed_once before line value }
{
    match before {
        None => Ok(Some(Placed { value, line })),
        Some(_) => Err(Fault::at(line, Wrong::Twice)),
    }
}

// One account more.
fn with_account(draft: Draft, line: usize, deposits: Deposits) -> Result<Draft, Fault>
    ensures { result ≡ said draft line (Entry.Account deposits) }
{
    if draft.deposits.count >= 16 {
        return Err(Fault::at(line, Wrong::TooManyAccounts));
    }
    if deposits.own.checked_add(deposits.theirs).is_none() {
        return Err(Fault::at(line, Wrong::DepositsTooLarge));
    }
    Ok(Draft {
        deposits: draft.deposits.with(deposits),
        ..draft
    })
}

// The draft with what a line says.
pub(crate) fn with_entry(draft: Draft, line: usize, entry: Entry) -> Result<Draft, Fault>
    ensures { result ≡ said draft line entry }
{
    Ok(match entry {
        Entry::Nothing => draft,
        Entry::Gap(value) => Draft {
            gap: once(draft.gap, line, value)?,
            ..draft
        },
        Entry::Window(value) => Draft {
            window: once(draft.window, line, value)?,
            ..draft
        },
        Entry::Delay(value) => Draft {
            delay: once(draft.delay, line, value)?,
            ..draft
        },
        Entry::Look(value) => Draft {
            look: once(draft.look, line, value)?,
            ..draft
        },
        Entry::Account(deposits) => with_account(draft, line, deposits)?,
    })
}

// The draft with one line more.
fn with_line(draft: Draft, line: usize, text: &[u8]) -> Result<Draft, Fault>
    ensures { result ≡ said_by draft line (line_says text.now) }
{
    let entry = entry_of(text).map_err(|wrong| Fault::at(line, wrong))?;
    with_entry(draft, line, entry)
}

// What all lines of a text say.
pub(crate) fn draft_of(text: &[u8]) -> Result<Draft, Fault>
    requires { length text.now ≤ 1048576 }
    ensures { result ≡ all_say empty 1 (parts 10 text.now) }
{
    let mut draft = Draft {
        gap: None,
        window: None,
        delay: None,
        look: None,
        deposits: DepositList::new(),
    };
    for (i, line) in text.split(|b| *b == b'\n').enumerate() {
        draft = with_line(draft, i + 1, line)?;
    }
    Ok(draft)
}

// The terms that a whole draft has, where its numbers keep the rules.
pub(crate) fn agreed_by(draft: Draft) -> Result<Agreed, Fault>
    ensures { result ≡ agreed draft }
{
    let gap = draft.gap.ok_or(Fault::missing(Wrong::NoGap))?;
    let window = draft.window.ok_or(Fault::missing(Wrong::NoWindow))?;
    let delay = draft.delay.ok_or(Fault::missing(Wrong::NoDelay))?;
    let look = draft.look.ok_or(Fault::missing(Wrong::NoLook))?;
    if draft.deposits.count == 0 {
        return Err(Fault::missing(Wrong::NoAccount));
    }
    match Numbers::new(gap.value, window.value, delay.value, look.value) {
        Ok(numbers) => Ok(Agreed {
            terms: numbers.values(),
            deposits: draft.deposits,
        }),
        Err(TooSmall::Look) => Err(Fault::at(look.line, Wrong::LookBelowOne)),
        Err(TooSmall::Window) => Err(Fault::at(window.line, Wrong::WindowTooShort)),
        Err(TooSmall::Gap) => Err(Fault::at(gap.line, Wrong::GapTooShort)),
    }
}
