// What happens, one JSON object a line. Names and lines of a script have no byte that JSON would have to escape.
// Each function is given where it writes, whose names it takes, and what it tells of: a struct of the first two would be
// taken apart in each.
use crate::cast::Cast;
use crate::names::Said;
use register::Phase;
use sheet::{Payment, Sheet};
use stage::{Ending, Event, Happening, InRegister, Letter, OfNode, Outcome, Standing};
use std::alloc::AllocError;

// The payments of one kind, as a list.
fn push_payments(
    out: &mut String,
    cast: &Cast,
    name: &str,
    payments: &[Payment],
) -> Result<(), AllocError> {
    write!(out, r#","{name}":["#)?;
    let mut between = "";
    for payment in payments {
        let Payment { lock, amount, end } = *payment;
        let key = cast.lock(&lock);
        write!(
            out,
            r#"{between}{{"key":"{key}","amount":{amount},"end":{end}}}"#
        )?;
        between = ",";
    }
    out.push_str("]")
}

fn push_sheet(
    out: &mut String,
    cast: &Cast,
    node: usize,
    account: usize,
    sheet: &Sheet,
) -> Result<(), AllocError> {
    let node = cast.party(node);
    let pair = cast.pair(account);
    let Sheet {
        number,
        own,
        theirs,
        ..
    } = *sheet;
    write!(
        out,
        r#","node":"{node}","account":"{pair}","number":{number},"own":{own},"theirs":{theirs}"#
    )?;
    push_payments(out, cast, "ins", sheet.ins())?;
    push_payments(out, cast, "outs", sheet.outs())
}

fn push_letter(
    out: &mut String,
    cast: &Cast,
    from: usize,
    to: usize,
    letter: Letter,
) -> Result<(), AllocError> {
    let from = cast.party(from);
    let to = cast.party(to);
    let (message, number) = match letter {
        Letter::Sheet { number } => ("signed sheet", number),
        Letter::Signature { number } => ("signature", number),
    };
    write!(
        out,
        r#","from":"{from}","to":"{to}","message":"{message}","number":{number}"#
    )
}

// An account, with a sheet and the end of its dispute.
fn push_dispute(
    out: &mut String,
    cast: &Cast,
    what: &str,
    account: usize,
    number: u32,
    until: u64,
) -> Result<(), AllocError> {
    let pair = cast.pair(account);
    write!(
        out,
        r#""{what}","account":"{pair}","number":{number},"until":{until}"#
    )
}

fn push_page(
    out: &mut String,
    cast: &Cast,
    account: usize,
    phase: &Phase,
) -> Result<(), AllocError> {
    match *phase {
        Phase::Quiet => {
            let pair = cast.pair(account);
            write!(out, r#""quiet","account":"{pair}""#)
        }
        Phase::Disputed { sheet, until } => {
            push_dispute(out, cast, "disputed", account, sheet.number, until)
        }
        Phase::Ended { sheet, until } => {
            push_dispute(out, cast, "ended since", account, sheet.number, until)
        }
    }
}

fn push_ending(out: &mut String, ending: Ending) -> Result<(), AllocError> {
    match ending {
        Ending::ByDispute { paid } => write!(out, r#","settled":"by dispute","has":{paid}"#),
        Ending::ByAgreement { paid } => write!(out, r#","settled":"by agreement","has":{paid}"#),
        Ending::NotSettled => out.push_str(r#","settled":"no""#),
    }
}

// What happens in the register.
fn push_in_register(out: &mut String, cast: &Cast, what: &InRegister) -> Result<(), AllocError> {
    match *what {
        InRegister::Opened {
            account,
            number,
            until,
        } => push_dispute(out, cast, "opened", account, number, until),
        InRegister::Replaced {
            account,
            number,
            until,
        } => push_dispute(out, cast, "replaced", account, number, until),
        InRegister::TurnedAway { account, number } => {
            let pair = cast.pair(account);
            write!(out, r#""turned away","account":"{pair}","number":{number}"#)
        }
        InRegister::Ended { account, number } => {
            let pair = cast.pair(account);
            write!(out, r#""ended","account":"{pair}","number":{number}"#)
        }
        InRegister::KeyCame { account, key } => {
            let pair = cast.pair(account);
            let key = cast.key(&key);
            write!(
                out,
                r#""key in the register","account":"{pair}","key":"{key}""#
            )
        }
        InRegister::Page { account, phase } => push_page(out, cast, account, &phase),
        InRegister::PageKey { account, key, tick } => {
            let pair = cast.pair(account);
            let key = cast.key(&key);
            write!(
                out,
                r#""key since","account":"{pair}","key":"{key}","since":{tick}"#
            )
        }
    }
}

// What a node does.
fn push_of_node(out: &mut String, cast: &Cast, what: &OfNode) -> Result<(), AllocError> {
    match *what {
        OfNode::SheetShown {
            by,
            account,
            number,
        } => {
            let node = cast.party(by);
            let pair = cast.pair(account);
            write!(
                out,
                r#""shows sheet","node":"{node}","account":"{pair}","number":{number}"#
            )
        }
        OfNode::KeyShown { by, account, key } => {
            let node = cast.party(by);
            let pair = cast.pair(account);
            let key = cast.key(&key);
            write!(
                out,
                r#""shows key","node":"{node}","account":"{pair}","key":"{key}""#
            )
        }
        OfNode::Learned { node, key } => {
            let node = cast.party(node);
            let key = cast.key(&key);
            write!(out, r#""learns key","node":"{node}","key":"{key}""#)
        }
        OfNode::Missed { node, last } => {
            let node = cast.party(node);
            write!(out, r#""look missed","node":"{node}","last":{last}"#)
        }
        OfNode::Stopped { node } => {
            let node = cast.party(node);
            write!(out, r#""stopped","node":"{node}""#)
        }
        OfNode::Started { node } => {
            let node = cast.party(node);
            write!(out, r#""started","node":"{node}""#)
        }
    }
}

// What is there at `show`.
fn push_standing(out: &mut String, cast: &Cast, what: &Standing) -> Result<(), AllocError> {
    match *what {
        Standing::Held {
            node,
            account,
            sheet,
            frozen,
        } => {
            out.push_str(r#""held""#)?;
            push_sheet(out, cast, node, account, &sheet)?;
            write!(out, r#","frozen":{frozen}"#)
        }
        Standing::Next {
            node,
            account,
            sheet,
        } => {
            out.push_str(r#""next""#)?;
            push_sheet(out, cast, node, account, &sheet)
        }
    }
}

// What each node comes out with.
fn push_outcome(out: &mut String, cast: &Cast, what: &Outcome) -> Result<(), AllocError> {
    match *what {
        Outcome::Result {
            node,
            account,
            put_in,
            ending,
        } => {
            let node = cast.party(node);
            let pair = cast.pair(account);
            write!(
                out,
                r#""result","node":"{node}","account":"{pair}","put in":{put_in}"#
            )?;
            push_ending(out, ending)
        }
        Outcome::Total {
            node,
            put_in,
            came_out,
            settled,
        } => {
            let node = cast.party(node);
            write!(out, r#""total","node":"{node}","put in":{put_in}"#)?;
            if settled {
                write!(out, r#","settled":"yes","has":{came_out}"#)
            } else {
                out.push_str(r#","settled":"no""#)
            }
        }
    }
}

fn push_what(out: &mut String, cast: &Cast, event: &Event) -> Result<(), AllocError> {
    match event.what {
        Happening::Played { answer, .. } => {
            out.push_str(r#""played","text":""#)?;
            cast.push_line(out, event.line)?;
            let answer = Said(answer);
            write!(out, r#"","answer":"{answer}""#)
        }
        Happening::Sent { from, to, letter } => {
            out.push_str(r#""sent""#)?;
            push_letter(out, cast, from, to, letter)
        }
        Happening::Came {
            from,
            to,
            letter,
            answer,
        } => {
            out.push_str(r#""came""#)?;
            push_letter(out, cast, from, to, letter)?;
            let answer = Said(answer);
            write!(out, r#","answer":"{answer}""#)
        }
        Happening::Looked { node, answer } => {
            let node = cast.party(node);
            let answer = Said(answer);
            write!(out, r#""looked","node":"{node}","answer":"{answer}""#)
        }
        Happening::Node(what) => push_of_node(out, cast, &what),
        Happening::Register(what) => push_in_register(out, cast, &what),
        Happening::Standing(what) => push_standing(out, cast, &what),
        Happening::Outcome(what) => push_outcome(out, cast, &what),
    }
}

// The object of an event: its tick, the line of the script (0 before the first), what it is, and its fields.
pub(crate) fn push_json(out: &mut String, cast: &Cast, event: &Event) -> Result<(), AllocError> {
    let tick = event.tick;
    let line = event.line.unwrap_or(0);
    write!(out, r#"{{"tick":{tick},"line":{line},"what":"#)?;
    push_what(out, cast, event)?;
    out.push_str("}\n")
}
