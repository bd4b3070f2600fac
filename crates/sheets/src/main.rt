// Sheets tried by hand: reads sheets in hexadecimal digits, turns them round, changes them and judges proposals.
#![tactic(auto)]

use anyhow::anyhow;
use change::{Change, apply};
use line_answers::answer_lines;
use lines::{Word, hex_bytes, next_word, push_hex, push_number};
use proposal::recognise;
use refusal::Refusal;
use sheet::{Payment, Sheet};
use sheet_bytes::{push_sheet, read_payment, read_sheet};
use std::alloc::{AllocError, Global};
use std::env;

const HELP: &str = "usage: sheets

Reads lines and answers each by one line, `sheet ..` or `no N`. Sheets and payments are in hexadecimal digits.
  read BYTES               the sheet that the bytes begin with: `sheet USED SHEET`, USED being how many bytes it took
  turn SHEET               the neighbour's view of it
  change NAME SHEET PAYMENT   the next sheet; NAME is offered, passing, paying, getting, returned or giving
  propose HELD SHEET       which change of HELD the neighbour proposes, and the sheet that it gives: `NAME SHEET`";

const PAYMENT_BYTES: usize = 40;

// Why a line has no sheet for an answer.
#[derive(Drop)]
enum Fault {
    Refused(Refusal),
    Memory,
}

impl From<Refusal> for Fault {
    fn from(refusal: Refusal) -> Fault {
        Fault::Refused(refusal)
    }
}

impl From<AllocError> for Fault {
    fn from(_e: AllocError) -> Fault {
        Fault::Memory
    }
}

const CHANGES: [Change; 6] = [
    Change::Offered,
    Change::PassingOn,
    Change::Paying,
    Change::Getting,
    Change::Returned,
    Change::GivingUp,
];

// This program's words for the changes, which are of another crate, so that no Display can stand here.
fn name_of(change: Change) -> &'static [u8] {
    match change {
        Change::Offered => b"offered",
        Change::PassingOn => b"passing",
        Change::Paying => b"paying",
        Change::Getting => b"getting",
        Change::Returned => b"returned",
        Change::GivingUp => b"giving",
    }
}

fn change_named(word: &[u8]) -> Result<Change, Refusal> {
    CHANGES
        .iter()
        .copied()
        .find(|change| name_of(*change) == word)
        .ok_or(Refusal::Unreadable)
}

fn word_of(line: &[u8]) -> Result<Word<'_>, Refusal> {
    next_word(line).ok_or(Refusal::Unreadable)
}

fn bytes_of(heap: Global, word: &[u8]) -> Result<Vec<u8>, Fault> {
    Ok(hex_bytes(heap, word)?.ok_or(Refusal::Unreadable)?)
}

// A word that is just one sheet.
fn sheet_of(heap: Global, word: &[u8]) -> Result<Sheet, Fault> {
    let bytes = bytes_of(heap, word)?;
    let read = read_sheet(bytes.as_slice())?;
    if read.used != bytes.len() {
        return Err(Refusal::Unreadable.into());
    }
    Ok(read.sheet)
}

// A word that is just one payment.
fn payment_of(heap: Global, word: &[u8]) -> Result<Payment, Fault> {
    let bytes = bytes_of(heap, word)?;
    let payment = read_payment(bytes.as_slice(), 0).ok_or(Refusal::Unreadable)?;
    if bytes.len() != PAYMENT_BYTES {
        return Err(Refusal::Unreadable.into());
    }
    Ok(payment)
}

fn push_line(out: &mut Vec<u8>, heap: Global, text: &[u8], sheet: &Sheet) -> Result<(), Fault> {
    let mut bytes = Vec::new(heap);
    push_sheet(&mut bytes, sheet)?;
    out.extend_from_slice(text)?;
    push_hex(out, bytes.as_slice())?;
    out.extend_from_slice(b"\n")?;
    Ok(())
}

// The parameters of this and the answers below are those of the closure that line_answers calls.
fn read_answer(out: &mut Vec<u8>, heap: Global, line: &[u8]) -> Result<(), Fault> {
    let bytes = bytes_of(heap, word_of(line)?.text)?;
    let read = read_sheet(bytes.as_slice())?;
    out.extend_from_slice(b"sheet ")?;
    if let Ok(used) = u32::try_from(read.used) {
        push_number(out, used)?;
    }
    push_line(out, heap, b" ", &read.sheet)
}

fn turn_answer(out: &mut Vec<u8>, heap: Global, line: &[u8]) -> Result<(), Fault> {
    let sheet = sheet_of(heap, word_of(line)?.text)?;
    push_line(out, heap, b"sheet ", &sheet.turned())
}

fn change_answer(out: &mut Vec<u8>, heap: Global, line: &[u8]) -> Result<(), Fault> {
    let name = word_of(line)?;
    let held = word_of(name.rest)?;
    let payment = payment_of(heap, word_of(held.rest)?.text)?;
    let change = change_named(name.text)?;
    let next = apply(sheet_of(heap, held.text)?, change, payment)?;
    push_line(out, heap, b"sheet ", &next)
}

fn propose_answer(out: &mut Vec<u8>, heap: Global, line: &[u8]) -> Result<(), Fault> {
    let first = word_of(line)?;
    let held = sheet_of(heap, first.text)?;
    let proposed = sheet_of(heap, word_of(first.rest)?.text)?;
    let proposal = recognise(&held, &proposed).ok_or(Refusal::Mismatch)?;
    let next = apply(held, proposal.change, proposal.payment)?;
    out.extend_from_slice(name_of(proposal.change))?;
    push_line(out, heap, b" ", &next)
}

fn answer(out: &mut Vec<u8>, heap: Global, line: &[u8]) -> Result<(), Fault> {
    let first = word_of(line)?;
    match first.text {
        b"read" => read_answer(out, heap, first.rest),
        b"turn" => turn_answer(out, heap, first.rest),
        b"change" => change_answer(out, heap, first.rest),
        b"propose" => propose_answer(out, heap, first.rest),
        _ => Err(Refusal::Unreadable.into()),
    }
}

// The answer, a refusal too.
fn answer_or_refusal(heap: Global, line: &[u8], out: &mut Vec<u8>) -> anyhow::Result<()> {
    match answer(out, heap, line) {
        Ok(()) => Ok(()),
        Err(Fault::Memory) => Err(anyhow!("out of memory")),
        Err(Fault::Refused(refusal)) => {
            out.clear();
            out.extend_from_slice(b"no ")?;
            push_number(out, u32::from(refusal.number()))?;
            out.extend_from_slice(b"\n")?;
            Ok(())
        }
    }
}

fn run(rt: &HostRuntime) -> anyhow::Result<()> {
    let mut words = env::args(rt)?;
    let _program = words.next();
    match words.next() {
        None => answer_lines(rt, answer_or_refusal),
        Some(word) if word.as_str() == "--help" => {
            rt.println(HELP)?;
            Ok(())
        }
        Some(_) => Err(anyhow!("no arguments: sheets --help says what the lines are")),
    }
}

fn main(rt: HostRuntime) -> anyhow::Result<()> {
    run(&rt)
}
