// A rehearsal: plays a script of nodes, neighbours, the register and time, and tells what happens.
#![tactic(auto)]

use crate::cast::Cast;
use anyhow::anyhow;
use script::{ReadFault, Script, read_script};
use stage::{Event, play};
use std::alloc::AllocError;
use std::io::Write;
use std::process::ExitCode;
use std::{env, fs};

mod cast;
mod drawing;
mod faults;
mod json;
mod lanes;
mod names;
mod sketch;
mod text;

use drawing::drawn;
use faults::say_fault;

const HELP: &str = "usage: rehearse [--json] [--picture FILE] SCRIPT

Plays a script: up to four nodes that keep the rules, others that do just what the script says, the register, and time.
The whole script is read first; if a word is wrong, its line and the word are told, and nothing is played. A script:

  terms gap 110 window 50 delay 5 look 13
  node baker
  other mill
  other smith
  account baker mill 10 10              # the baker put in 10, and so did the mill
  account baker smith 10 10
  mill offers baker key 1 amount 5 end 300
  baker passes key 1 from mill to smith amount 5 end 190
  smith signs baker
  key 1 to baker
  baker pays smith key 1
  smith signs baker
  mill pays baker key 1
  show

Each line of output begins with its tick; a line that a node refuses ends with `no` and the number of the reason. Last comes
what each node put in and what it has. --json writes an object a line, and --picture FILE besides\na drawing of it all as an SVG document, to FILE. docs/FORMATS.md has all lines, examples/rehearse/ has scripts.";

// A script to be played, and where its drawing goes, if there is to be one.
#[derive(Drop)]
struct Wanted {
    path: String,
    json: bool,
    picture: Option<String>,
}

// What the arguments ask for.
enum Task {
    Play(Wanted),
    Help,
    Usage,
}

// `while let Some(word) = words.next()` would take the file where --picture stands, but such a loop has no measure.
fn asked(rt: &HostRuntime) -> anyhow::Result<Task> {
    let mut words = env::args(rt)?;
    let _program = words.next();
    let mut json = false;
    let mut wants_file = false;
    let mut picture = None;
    let mut script = None;
    for word in words {
        if wants_file {
            picture = Some(word);
            wants_file = false;
        } else if word.as_str() == "--help" {
            return Ok(Task::Help);
        } else if word.as_str() == "--json" {
            json = true;
        } else if word.as_str() == "--picture" {
            wants_file = true;
        } else if script.is_some() {
            return Ok(Task::Usage);
        } else {
            script = Some(word);
        }
    }
    match script {
        Some(path) if !wants_file => Ok(Task::Play(Wanted {
            path,
            json,
            picture,
        })),
        _ => Ok(Task::Usage),
    }
}

// As objects or as lines: which of the two is asked for each event, since a closure for it would be chosen by the same flag.
fn told(cast: &Cast, events: &[Event], as_json: bool) -> Result<String, AllocError> {
    let mut out = String::new(cast.heap);
    for event in events {
        if as_json {
            json::push_json(&mut out, cast, event)?;
        } else {
            text::push_text(&mut out, cast, event)?;
        }
    }
    Ok(out)
}

// Writes the drawing to its file, if there is to be one.
fn write_picture(
    rt: &HostRuntime,
    cast: &Cast,
    events: &[Event],
    wanted: &Wanted,
) -> anyhow::Result<()> {
    let Some(file) = &wanted.picture else {
        return Ok(());
    };
    let svg = drawn(cast, events, wanted.path.as_str())?;
    if let Err(e) = fs::write(rt, file.as_str(), svg.as_slice()) {
        let name = file.as_str();
        eprintln!(rt; "rehearse: {name}: {e}")?;
        return Err(anyhow!("no picture"));
    }
    Ok(())
}

fn perform(rt: &HostRuntime, script: Script, text: Vec<u8>, wanted: &Wanted) -> anyhow::Result<()> {
    let events = play(rt.alloc(), &script)?;
    let cast = Cast::new(rt.alloc(), script, text)?;
    let out = told(&cast, events.as_slice(), wanted.json)?;
    rt.stdout().write_all(out.as_bytes())?;
    write_picture(rt, &cast, events.as_slice(), wanted)
}

fn run(rt: &HostRuntime, wanted: &Wanted) -> anyhow::Result<()> {
    let path = wanted.path.as_str();
    let text = match fs::read(rt, path) {
        Ok(text) => text,
        Err(e) => {
            eprintln!(rt; "rehearse: {path}: {e}")?;
            return Err(anyhow!("no script"));
        }
    };
    match read_script(rt.alloc(), text.as_slice()) {
        Ok(script) => perform(rt, script, text, wanted),
        Err(ReadFault::Memory) => Err(anyhow!("out of memory")),
        Err(ReadFault::Wrong(fault)) => {
            say_fault(rt, path, text.as_slice(), fault)?;
            Err(anyhow!("the script is wrong"))
        }
    }
}

fn attend(rt: &HostRuntime) -> anyhow::Result<()> {
    match asked(rt)? {
        Task::Play(wanted) => run(rt, &wanted),
        Task::Help => {
            println!(rt; "{HELP}")?;
            Ok(())
        }
        Task::Usage => {
            eprintln!(rt;
                "rehearse: one argument, a script: rehearse [--json] [--picture FILE] SCRIPT (rehearse --help says more)"
            )?;
            Err(anyhow!("usage"))
        }
    }
}

// What stops the program ends it with status 1.
fn main(rt: HostRuntime) -> ExitCode {
    match attend(&rt) {
        Ok(()) => ExitCode::SUCCESS,
        Err(_) => ExitCode::FAILURE,
    }
}
