// The least that a node can come out with: reads a node's file, and prints its sheets and the least.
#![tactic(auto)]

use anyhow::anyhow;
use counting::{Count, count, ins_total, outs_total};
use node_state::Node;
use replay::{Replayed, StartFault, replay};
use schedule::Terms;
use sheet::Sheet;
use std::alloc::{AllocError, Global};
use std::process::ExitCode;
use std::{env, fs};

const HELP: &str = "usage: count [--json] FOLDER
       count [--json] FILE

Reads the file `accounts` of a node, in FOLDER or as FILE, and writes nothing to it. Prints a line for each account with its
held and next sheets, and then
  least N        the least that the node can come out with, over all choices of held or next for each account
                 and all sets of keys that may be shown
  deposits N     what the node put in
  difference N   the least less the deposits
With --json each line is an object. docs/FORMATS.md has the lines.";

// The node's file in a folder, or the file itself.
fn path_of(rt: &HostRuntime, word: &str) -> anyhow::Result<String> {
    if let Ok(found) = fs::metadata(rt, word) {
        if found.is_dir() {
            return Ok(format!(in rt.alloc(); "{word}/accounts")?);
        }
    }
    Ok(format!(in rt.alloc(); "{word}")?)
}

// How a sheet, an account with its sheets and the count are written.
trait Form {
    fn sheet(heap: Global, sheet: &Sheet) -> Result<String, AllocError>;

    fn account(
        heap: Global,
        i: usize,
        held: &str,
        next: Option<&str>,
    ) -> Result<String, AllocError>;

    fn count(heap: Global, counted: Count) -> Result<String, AllocError>;
}

struct Text;

struct Json;

impl Form for Text {
    fn sheet(heap: Global, sheet: &Sheet) -> Result<String, AllocError> {
        let (number, own, theirs) = (sheet.number, sheet.own, sheet.theirs);
        let (ins, outs) = (sheet.ins().len(), sheet.outs().len());
        let (in_sum, out_sum) = (ins_total(sheet), outs_total(sheet));
        format!(in heap;
            "{number}: own {own}, theirs {theirs}, ins {ins} ({in_sum}), outs {outs} ({out_sum})"
        )
    }

    fn account(
        heap: Global,
        i: usize,
        held: &str,
        next: Option<&str>,
    ) -> Result<String, AllocError> {
        match next {
            None => format!(in heap; "account {i}  held {held}"),
            Some(next) => format!(in heap; "account {i}  held {held}  next {next}"),
        }
    }

    fn count(heap: Global, counted: Count) -> Result<String, AllocError> {
        let (least, deposits, difference) = (counted.least, counted.deposits, counted.difference);
        format!(in heap; "least {least}\ndeposits {deposits}\ndifference {difference}")
    }
}

impl Form for Json {
    fn sheet(heap: Global, sheet: &Sheet) -> Result<String, AllocError> {
        let (number, own, theirs) = (sheet.number, sheet.own, sheet.theirs);
        let (ins, outs) = (sheet.ins().len(), sheet.outs().len());
        let (in_sum, out_sum) = (ins_total(sheet), outs_total(sheet));
        format!(in heap;
            "{{\"number\":{number},\"own\":{own},\"theirs\":{theirs},\"ins\":{ins},\"ins_total\":{in_sum},\"outs\":{outs},\"outs_total\":{out_sum}}}"
        )
    }

    fn account(
        heap: Global,
        i: usize,
        held: &str,
        next: Option<&str>,
    ) -> Result<String, AllocError> {
        let next = next.unwrap_or("null");
        format!(in heap; "{{\"account\":{i},\"held\":{held},\"next\":{next}}}")
    }

    fn count(heap: Global, counted: Count) -> Result<String, AllocError> {
        let (least, deposits, difference) = (counted.least, counted.deposits, counted.difference);
        format!(in heap;
            "{{\"least\":{least},\"deposits\":{deposits},\"difference\":{difference}}}"
        )
    }
}

fn print_accounts<F: Form>(rt: &HostRuntime, node: &Node) -> anyhow::Result<()> {
    let heap = rt.alloc();
    for (i, account) in node.accounts().iter().enumerate() {
        let held = F::sheet(heap, &account.held)?;
        let line = match account.under_way() {
            None => F::account(heap, i, held.as_str(), None)?,
            Some(sheet) => F::account(
                heap,
                i,
                held.as_str(),
                Some(F::sheet(heap, sheet)?.as_str()),
            )?,
        };
        println!(rt; "{line}")?;
    }
    Ok(())
}

// The node that the file says, where it is not damaged: that is said here. Terms are of no matter for a count.
fn started(rt: &HostRuntime, path: &str, bytes: &[u8]) -> anyhow::Result<Option<Replayed>> {
    let terms = Terms {
        gap: 0,
        window: 0,
        delay: 0,
        look: 0,
    };
    match replay(rt.alloc(), terms, bytes) {
        Ok(replayed) => Ok(Some(replayed)),
        Err(StartFault::Memory) => Err(anyhow!("out of memory")),
        Err(StartFault::Damaged { at }) => {
            eprintln!(rt; "count: {path}, byte {at}: damaged")?;
            Ok(None)
        }
    }
}

// What stands in the file, where it can be read: else that is said here, since an anyhow::Error would cut a long path.
fn contents(rt: &HostRuntime, path: &str) -> anyhow::Result<Option<Vec<u8>>> {
    match fs::read(rt, path) {
        Ok(bytes) => Ok(Some(bytes)),
        Err(e) => {
            eprintln!(rt; "count: {path}: {e}")?;
            Ok(None)
        }
    }
}

fn run<F: Form>(rt: &HostRuntime, word: &str) -> anyhow::Result<ExitCode> {
    let file = path_of(rt, word)?;
    let path = file.as_str();
    let Some(bytes) = contents(rt, path)? else {
        return Ok(ExitCode::FAILURE);
    };
    let Some(replayed) = started(rt, path, bytes.as_slice())? else {
        return Ok(ExitCode::FAILURE);
    };
    let whole = replayed.whole;
    if whole < bytes.len() {
        eprintln!(rt; "count: {path}, byte {whole}: a short record, which is left out")?;
    }
    let counted = match count(&replayed.node, bytes.as_slice()) {
        Ok(counted) => counted,
        Err(disorder) => {
            let account = disorder.account;
            eprintln!(rt; "count: {path}: next of account {account} is not held with one change")?;
            return Ok(ExitCode::FAILURE);
        }
    };
    print_accounts::<F>(rt, &replayed.node)?;
    let lines = F::count(rt.alloc(), counted)?;
    println!(rt; "{lines}")?;
    Ok(ExitCode::SUCCESS)
}

// What stops a count is said on standard error.
fn attempt<F: Form>(rt: &HostRuntime, word: &str) -> anyhow::Result<ExitCode> {
    let done = run::<F>(rt, word);
    if let Err(e) = &done {
        eprintln!(rt; "count: {e}")?;
    }
    done
}

// Does what the arguments ask for.
fn attend(rt: &HostRuntime) -> anyhow::Result<ExitCode> {
    let mut words = env::args(rt)?;
    let _program = words.next();
    let (first, second, third) = (words.next(), words.next(), words.next());
    match (&first, &second, &third) {
        (Some(first), _, _) if first.as_str() == "--help" => {
            println!(rt; "{HELP}")?;
            Ok(ExitCode::SUCCESS)
        }
        (Some(first), Some(word), None) if first.as_str() == "--json" => {
            attempt::<Json>(rt, word.as_str())
        }
        (Some(word), None, None) if word.as_str() != "--json" => {
            attempt::<Text>(rt, word.as_str())
        }
        _ => {
            eprintln!(rt;
                "count: one folder or one file: count [--json] FOLDER (count --help says more)"
            )?;
            Ok(ExitCode::FAILURE)
        }
    }
}

// What stops the program ends it with status 1.
fn main(rt: HostRuntime) -> ExitCode {
    attend(&rt).unwrap_or(ExitCode::FAILURE)
}
