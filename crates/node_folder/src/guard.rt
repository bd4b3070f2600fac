// One program to a folder: a file `running` names the process that works with it.
use anyhow::anyhow;
use std::fs::File;
use std::io::Write;
use std::{fs, process};

// The file that says who works with the folder.
#[derive(Drop)]
pub(crate) struct Guard {
    path: String,
}

// What follows the last closing bracket: a process may have any name.
fn after_name(text: &[u8]) -> &[u8] {
    text.rsplit(|b| *b == b')').next().unwrap_or(text)
}

// When a process began, as the system counts it: the 22nd field of its status line, which is the 20th word after its name.
fn beginning(status: &[u8]) -> Option<&[u8]> {
    after_name(status)
        .split(|b| *b == b' ')
        .filter(|word| !word.is_empty())
        .nth(19)
}

// The beginning tells a process from a later one with the same number. None where there is no such process. Each byte is a
// character: the system writes digits, but `running` may lead to another file, which need not hold a text.
fn began(rt: &HostRuntime, pid: &str) -> anyhow::Result<Option<String>> {
    let heap = rt.alloc();
    let path = format!(in heap; "/proc/{pid}/stat")?;
    let Ok(status) = fs::read(rt, path.as_str()) else {
        return Ok(None);
    };
    match beginning(status.as_slice()) {
        Some(when) => Ok(Some(when.iter().map(|b| char::from(*b)).collect(heap)?)),
        None => Ok(None),
    }
}

// Does the process that the file names still run.
fn still_runs(rt: &HostRuntime, text: &str) -> anyhow::Result<bool> {
    let Some((pid, when)) = text.split_once(' ') else {
        return Ok(false);
    };
    Ok(began(rt, pid)?.is_some_and(|now| now.as_str() == when))
}

impl Guard {
    // Takes the folder, unless a program that still runs has it. What a killed program left behind is taken over.
    pub(crate) fn take(rt: &HostRuntime, folder: &str) -> anyhow::Result<Guard> {
        let heap = rt.alloc();
        if let Err(e) = fs::read_dir(rt, folder) {
            eprintln!(rt; "node: can't open the folder {folder}: {e}")?;
            return Err(anyhow!("the node did not start"));
        }
        let path = format!(in heap; "{folder}/running")?;
        if let Ok(text) = fs::read_to_string(rt, path.as_str()) {
            if still_runs(rt, text.as_str())? {
                eprintln!(rt;
                    "node: another program works with {folder} ({path} names its process): stop that one first"
                )?;
                return Err(anyhow!("the node did not start"));
            }
            fs::remove_file(rt, path.as_str())?;
        }
        let pid = process::id(rt.process());
        let pid = format!(in heap; "{pid}")?;
        let when = match began(rt, pid.as_str())? {
            Some(when) => when,
            None => String::from_str(heap, "unknown")?,
        };
        let mut file = File::create_new(rt, path.as_str())?;
        file.write_all(pid.as_bytes())?;
        file.write_all(b" ")?;
        file.write_all(when.as_bytes())?;
        Ok(Guard { path })
    }

    // The folder is free again.
    pub(crate) fn release(self, rt: &HostRuntime) {
        let _ = fs::remove_file(rt, self.path.as_str());
    }
}
