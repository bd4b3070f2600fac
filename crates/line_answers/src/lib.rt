// A program that answers the lines of its input, one after the other: digests and sheets are such.
// Promises: it ends, and fails only where reading, writing or an answer does; a pipe has no contract, so nothing is said of what
// is read and written. Leans on std and anyhow.
#![tactic(auto)]

use std::alloc::Global;
use std::io::{BufRead, BufReader, Write};

// Hands each line of standard input, without its newline, to `answer`, and writes at once what that puts into the empty buffer.
pub fn answer_lines<F: FnMut(Global, &[u8], &mut Vec<u8>) -> anyhow::Result<()>>(
    rt: &HostRuntime,
    mut answer: F,
) -> anyhow::Result<()>
    requires { F.IsAlwaysCallable answer }
{
    let heap = rt.alloc();
    let mut input = BufReader::new(heap, rt.stdin())?;
    let mut line = Vec::new(heap);
    let mut out = Vec::new(heap);
    // One buffer for all lines: `split` makes one for each, and long lines then take half as much memory again. A loop that waits
    // on input has to be counted, since each function ends.
    for _ in 0..u64::MAX {
        line.clear();
        if input.read_until(b'\n', &mut line)? == 0 {
            break;
        }
        let text = line.as_slice();
        out.clear();
        answer(heap, text.strip_suffix(b"\n").unwrap_or(text), &mut out)?;
        rt.stdout().write_all(out.as_slice())?;
    }
    Ok(())
}
