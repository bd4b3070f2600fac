// How a node comes up from its folder.
use crate::acts::push_send;
use crate::store::Store;
use anyhow::anyhow;
use journal::{Record, RecordRead, read_record};
use node_state::Node;
use replay::{StartFault, replay};
use sheet::Sheet;
use std::fs;
use std::fs::{File, OpenOptions};
use std::io::{ErrorKind, Write};
use terms::{Agreed, Deposits, Fault, read_terms};

// The owner's terms; says what is wrong with them otherwise.
fn agreed(rt: &HostRuntime, folder: &str) -> anyhow::Result<Agreed> {
    let path = format!(in rt.alloc(); "{folder}/terms")?;
    let text = match fs::read(rt, path.as_str()) {
        Ok(text) => text,
        Err(e) => {
            eprintln!(rt; "node: {path}: {e}")?;
            return Err(anyhow!("the node did not start"));
        }
    };
    match read_terms(text.as_slice()) {
        Ok(agreed) => Ok(agreed),
        Err(Fault { line, wrong }) => {
            match line {
                Some(line) => eprintln!(rt; "node: {path}, line {line}: {wrong}")?,
                None => eprintln!(rt; "node: {path}: {wrong}")?,
            }
            Err(anyhow!("the node did not start"))
        }
    }
}

// How many bytes the record of an account's first sheet has.
const FIRST_BYTES: usize = 16;

// Is the first sheet of account i the one that the terms say.
fn is_agreed(bytes: &[u8], i: usize, deposits: &Deposits) -> bool {
    match read_record(bytes, i.saturating_mul(FIRST_BYTES)) {
        Ok(
            Some(
                RecordRead {
                    record: Record::Both(sheet),
                    ..
                },
            ),
        ) => sheet.own == deposits.own && sheet.theirs == deposits.theirs,
        _ => false,
    }
}

// Are the first sheets of the file those of the terms, or a first part of them with nothing after.
fn fits_terms(bytes: &[u8], firsts: usize, others: bool, deposits: &[Deposits]) -> bool {
    firsts <= deposits.len()
        && (firsts == deposits.len() || !others)
        && deposits
            .iter()
            .enumerate()
            .take(firsts)
            .all(|(i, deposits)| is_agreed(bytes, i, deposits))
}

// The file's bytes; none where there is no file yet.
fn contents(rt: &HostRuntime, path: &str) -> anyhow::Result<Option<Vec<u8>>> {
    match fs::read(rt, path) {
        Ok(bytes) => Ok(Some(bytes)),
        Err(e) => {
            if e.kind() == ErrorKind::NotFound {
                return Ok(None);
            }
            eprintln!(rt; "node: {path}: {e}")?;
            Err(anyhow!("the node did not start"))
        }
    }
}

// The accounts that the file doesn't have yet are opened and recorded.
fn open_missing(node: &mut Node, store: &mut Store, deposits: &[Deposits]) -> anyhow::Result<()> {
    let firsts = node.many();
    for (i, deposits) in deposits.iter().enumerate().skip(firsts) {
        let Deposits { own, theirs } = *deposits;
        if node.open_account(own, theirs) {
            store.append(&Record::Both(Sheet::first((i & 0xff) as u8, own, theirs)))?;
        }
    }
    Ok(())
}

// What may not have got out is sent again, and the node is ready.
fn send_again(rt: &HostRuntime, node: &Node) -> anyhow::Result<()> {
    let heap = rt.alloc();
    let mut out = Vec::new(heap);
    for (i, account) in node.accounts().iter().enumerate() {
        if account.held.number > 0 {
            push_send(&mut out, heap, i, &account.held)?;
        }
        if let Some(next) = account.under_way() {
            push_send(&mut out, heap, i, next)?;
        }
    }
    out.extend_from_slice(b"ready\n")?;
    rt.stdout().write_all(out.as_slice())?;
    Ok(())
}

fn refused(rt: &HostRuntime, path: &str, words: &str) -> anyhow::Result<(Node, Store)> {
    eprintln!(rt; "node: {path}{words}")?;
    Err(anyhow!("the node did not start"))
}

// The node and its open file, cut back to its last whole record, completed and synced.
fn completed(
    rt: &HostRuntime,
    folder: &str,
    path: &str,
    agreed: &Agreed,
) -> anyhow::Result<(Node, Store)> {
    let heap = rt.alloc();
    let deposits = agreed.deposits.as_slice();
    let found = contents(rt, path)?;
    let is_new = found.is_none();
    let bytes = found.unwrap_or(Vec::new(heap));
    let replayed = match replay(heap, agreed.terms, bytes.as_slice()) {
        Ok(replayed) => replayed,
        Err(StartFault::Memory) => return Err(anyhow!("out of memory")),
        Err(StartFault::Damaged { at }) => {
            let words = format!(in heap; ", byte {at}: damaged")?;
            return refused(rt, path, words.as_str());
        }
    };
    if !fits_terms(bytes.as_slice(), replayed.firsts, replayed.others, deposits) {
        return refused(rt, path, ": not the accounts of terms");
    }
    let mut how = OpenOptions::new();
    how.append(true);
    how.create(true);
    let mut store = Store::new(heap, how.open(rt, path)?);
    let mut node = replayed.node;
    store.cut_back(replayed.whole as u64)?;
    open_missing(&mut node, &mut store, deposits)?;
    store.sync_all()?;
    if is_new {
        File::open(rt, folder)?.sync_all()?;
    }
    Ok((node, store))
}

// The node from its folder, ready for lines.
pub(crate) fn opened(rt: &HostRuntime, folder: &str) -> anyhow::Result<(Node, Store)> {
    let agreed = agreed(rt, folder)?;
    let path = format!(in rt.alloc(); "{folder}/accounts")?;
    let (node, store) = completed(rt, folder, path.as_str(), &agreed)?;
    send_again(rt, &node)?;
    Ok((node, store))
}
