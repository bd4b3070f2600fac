// SHA-256 of hexadecimal lines: for each line of standard input the digest of its bytes, or `no`.
#![tactic(auto)]

use anyhow::anyhow;
use digest::{digest, lock};
use line_answers::answer_lines;
use lines::{hex_bytes, number, push_hex};
use std::alloc::Global;
use std::env;
use std::io::Write;

const HELP: &str = "usage: digests
       digests --chain N    start with 32 zero bytes and take the digest N times: the last one
       digests --repeat N   the digest of 1 MiB, N times: the last one

Reads lines of hexadecimal digits, one message a line, and writes for each the 64 digits of its SHA-256,
or `no` where the line is no hexadecimal. The empty line is the empty message. The other two are for measuring.";

// What the arguments ask for.
enum Task {
    Lines,
    Chain(u32),
    Repeat(u32),
    Help,
    Unknown,
}

fn task_of(word: &str, count: &str) -> Task {
    match (word, number(count.as_bytes())) {
        ("--help", _) => Task::Help,
        ("--chain", Ok(n)) => Task::Chain(n),
        ("--repeat", Ok(n)) => Task::Repeat(n),
        _ => Task::Unknown,
    }
}

fn asked(rt: &HostRuntime) -> anyhow::Result<Task> {
    let mut words = env::args(rt)?;
    let _program = words.next();
    let Some(word) = words.next() else {
        return Ok(Task::Lines);
    };
    match words.next() {
        Some(count) => Ok(task_of(word.as_str(), count.as_str())),
        None => Ok(task_of(word.as_str(), "")),
    }
}

// The digest of the digest, and so on.
fn chain(count: u32) -> [u8; 32] {
    (0..count).fold([0; 32], |key: [u8; 32], _| lock(&key))
}

// The digest of 1 MiB, whose first byte is that of the digest before.
fn repeat(heap: Global, count: u32) -> anyhow::Result<[u8; 32]> {
    let mut message: Vec<u8> = (0..1_048_576u32)
        .map(|i| (i.wrapping_mul(31).wrapping_add(7) & 0xff) as u8)
        .collect(heap)?;
    let mut last = [0; 32];
    // Each turn changes the message in place: a fold over it would be no plainer.
    for _ in 0..count {
        last = digest(message.as_slice());
        if let Some(first) = message.first_mut() {
            *first = last[0];
        }
    }
    Ok(last)
}

// The answer to one line, without its newline.
fn answer(heap: Global, line: &[u8], out: &mut Vec<u8>) -> anyhow::Result<()> {
    match hex_bytes(heap, line)? {
        Some(message) => push_hex(out, &digest(message.as_slice()))?,
        None => out.extend_from_slice(b"no")?,
    }
    out.push(b'\n')?;
    Ok(())
}

fn written(rt: &HostRuntime, bytes: [u8; 32]) -> anyhow::Result<()> {
    let mut out = Vec::new(rt.alloc());
    push_hex(&mut out, &bytes)?;
    out.push(b'\n')?;
    rt.stdout().write_all(out.as_slice())?;
    Ok(())
}

fn run(rt: &HostRuntime) -> anyhow::Result<()> {
    match asked(rt)? {
        Task::Lines => answer_lines(rt, answer),
        Task::Chain(count) => written(rt, chain(count)),
        Task::Repeat(count) => written(rt, repeat(rt.alloc(), count)?),
        Task::Help => {
            rt.println(HELP)?;
            Ok(())
        }
        Task::Unknown => Err(anyhow!("unknown arguments: digests --help says what there is")),
    }
}

fn main(rt: HostRuntime) -> anyhow::Result<()> {
    run(&rt)
}
