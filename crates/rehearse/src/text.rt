// What happens, in lines for people. Every line begins with `tick T`, or with `end` for what each node comes out with.
use crate::cast::Cast;
use crate::names::Said;
use register::Phase;
use sheet::{Payment, Sheet};
use stage::{Ending, Event, Happening, InRegister, Letter, OfNode, Outcome, Standing};
use std::alloc::AllocError;

fn push_payments(
    out: &mut String,
    cast: &Cast,
    kind: &str,
    payments: &[Payment],
) -> Result<(), AllocError> {
    for payment in payments {
        let Payment { lock, amount, end } = *payment;
        let key = cast.lock(&lock);
        write!(out, " {kind} key {key} amount {amount} end {end}")?;
    }
    Ok(())
}

fn push_sheet(out: &mut String, cast: &Cast, sheet: &Sheet) -> Result<(), AllocError> {
    let Sheet {
        number,
        own,
        theirs,
        ..
    } = *sheet;
    write!(out, "{number} own {own} theirs {theirs}")?;
    push_payments(out, cast, "in", sheet.ins())?;
    push_payments(out, cast, "out", sheet.outs())
}

fn push_letter(out: &mut String, letter: Letter) -> Result<(), AllocError> {
    match letter {
        Letter::Sheet { number } => write!(out, " signed sheet {number}"),
        Letter::Signature { number } => write!(out, " signature under {number}"),
    }
}

fn push_phase(out: &mut String, phase: &Phase) -> Result<(), AllocError> {
    match *phase {
        Phase::Quiet => write!(out, " quiet"),
        Phase::Disputed { sheet, until } => {
            let number = sheet.number;
            write!(out, " disputed sheet {number} until {until}")
        }
        Phase::Ended { sheet, until } => {
            let number = sheet.number;
            write!(out, " ended sheet {number} until {until}")
        }
    }
}

// How an account of a node was ended.
fn push_ending(out: &mut String, ending: Ending) -> Result<(), AllocError> {
    match ending {
        Ending::ByDispute { paid } => write!(out, " has {paid} by dispute"),
        Ending::ByAgreement { paid } => write!(out, " has {paid} by agreement"),
        Ending::NotSettled => write!(out, " not settled"),
    }
}

// What happens in the register.
fn push_in_register(out: &mut String, cast: &Cast, what: &InRegister) -> Result<(), AllocError> {
    match *what {
        InRegister::Opened {
            account,
            number,
            until,
        } => {
            let pair = cast.pair(account);
            write!(
                out,
                "register {pair} opens with sheet {number} until {until}"
            )
        }
        InRegister::Replaced {
            account,
            number,
            until,
        } => {
            let pair = cast.pair(account);
            write!(
                out,
                "register {pair} goes on with sheet {number} until {until}"
            )
        }
        InRegister::TurnedAway { account, number } => {
            let pair = cast.pair(account);
            write!(out, "register {pair} turns away sheet {number}")
        }
        InRegister::Ended { account, number } => {
            let pair = cast.pair(account);
            write!(out, "register {pair} ends with sheet {number}")
        }
        InRegister::KeyCame { account, key } => {
            let pair = cast.pair(account);
            let key = cast.key(&key);
            write!(out, "register {pair} has key {key}")
        }
        InRegister::Page { account, phase } => {
            let pair = cast.pair(account);
            write!(out, "register {pair}")?;
            push_phase(out, &phase)
        }
        InRegister::PageKey { account, key, tick } => {
            let pair = cast.pair(account);
            let key = cast.key(&key);
            write!(out, "register {pair} key {key} since tick {tick}")
        }
    }
}

// What a node does.
fn push_of_node(out: &mut String, cast: &Cast, what: &OfNode) -> Result<(), AllocError> {
    match *what {
        OfNode::SheetShown {
            by,
            account,
            number,
        } => {
            let node = cast.party(by);
            let pair = cast.pair(account);
            write!(out, "{node} shows sheet {number} of {pair}")
        }
        OfNode::KeyShown { by, account, key } => {
            let node = cast.party(by);
            let pair = cast.pair(account);
            let key = cast.key(&key);
            write!(out, "{node} shows key {key} for {pair}")
        }
        OfNode::Learned { node, key } => {
            let node = cast.party(node);
            let key = cast.key(&key);
            write!(out, "{node} learns key {key}")
        }
        OfNode::Missed { node, last } => {
            let node = cast.party(node);
            write!(
                out,
                "{node} has not looked since tick {last}, too long ago: the promise does not cover this"
            )
        }
        OfNode::Stopped { node } => {
            let node = cast.party(node);
            write!(out, "{node} is stopped")
        }
        OfNode::Started { node } => {
            let node = cast.party(node);
            write!(out, "{node} is started")
        }
    }
}

// What is there at `show`.
fn push_standing(out: &mut String, cast: &Cast, what: &Standing) -> Result<(), AllocError> {
    match *what {
        Standing::Held {
            node,
            account,
            sheet,
            frozen,
        } => {
            let side = cast.side(node, account);
            write!(out, "{side} held ")?;
            push_sheet(out, cast, &sheet)?;
            out.push_str(if frozen { " frozen" } else { "" })
        }
        Standing::Next {
            node,
            account,
            sheet,
        } => {
            let side = cast.side(node, account);
            write!(out, "{side} next ")?;
            push_sheet(out, cast, &sheet)
        }
    }
}

// What each node comes out with.
fn push_outcome(out: &mut String, cast: &Cast, what: &Outcome) -> Result<(), AllocError> {
    match *what {
        Outcome::Result {
            node,
            account,
            put_in,
            ending,
        } => {
            let side = cast.side(node, account);
            write!(out, "{side} put in {put_in}")?;
            push_ending(out, ending)
        }
        Outcome::Total {
            node,
            put_in,
            came_out,
            settled,
        } => {
            let node = cast.party(node);
            write!(out, "{node} in all put in {put_in}")?;
            if settled {
                write!(out, " has {came_out}")
            } else {
                write!(out, " not settled")
            }
        }
    }
}

// What happens, without its tick.
fn push_what(out: &mut String, cast: &Cast, event: &Event) -> Result<(), AllocError> {
    match event.what {
        Happening::Played { answer, .. } => {
            cast.push_line(out, event.line)?;
            let answer = Said(answer);
            write!(out, ": {answer}")
        }
        Happening::Sent { from, to, letter } => {
            let from = cast.party(from);
            let to = cast.party(to);
            write!(out, "{from} sends {to}")?;
            push_letter(out, letter)
        }
        Happening::Came {
            from,
            to,
            letter,
            answer,
        } => {
            let from = cast.party(from);
            let to = cast.party(to);
            write!(out, "{to} has from {from}")?;
            push_letter(out, letter)?;
            let answer = Said(answer);
            write!(out, ": {answer}")
        }
        Happening::Looked { node, answer } => {
            let node = cast.party(node);
            let answer = Said(answer);
            write!(out, "{node} looks: {answer}")
        }
        Happening::Node(what) => push_of_node(out, cast, &what),
        Happening::Register(what) => push_in_register(out, cast, &what),
        Happening::Standing(what) => push_standing(out, cast, &what),
        Happening::Outcome(what) => push_outcome(out, cast, &what),
    }
}

// The line of an event.
pub(crate) fn push_text(out: &mut String, cast: &Cast, event: &Event) -> Result<(), AllocError> {
    match event.what {
        Happening::Outcome(_) => out.push_str("end  ")?,
        _ => {
            let tick = event.tick;
            write!(out, "tick {tick}  ")?;
        }
    }
    push_what(out, cast, event)?;
    out.push_str("\n")
}
