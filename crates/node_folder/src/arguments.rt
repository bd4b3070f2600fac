// What the arguments ask for, and how a program ends.
use crate::guard::Guard;
use anyhow::anyhow;
use std::env;
use std::process::ExitCode;

enum Task {
    Run(String),
    Help,
    Usage,
}

fn asked(rt: &HostRuntime) -> anyhow::Result<Task> {
    let mut words = env::args(rt)?;
    let _program = words.next();
    let Some(word) = words.next() else {
        return Ok(Task::Usage);
    };
    if word.as_str() == "--help" {
        return Ok(Task::Help);
    }
    if words.next().is_some() {
        return Ok(Task::Usage);
    }
    Ok(Task::Run(word))
}

// With the folder held against a second program.
fn run<F: FnOnce(&str) -> anyhow::Result<()>>(
    rt: &HostRuntime,
    folder: &str,
    serve: F,
) -> anyhow::Result<()>
    requires { F.IsAlwaysCallable serve }
{
    let guard = Guard::take(rt, folder)?;
    let result = serve(folder);
    guard.release(rt);
    result
}

// What stops it is said on standard error.
fn done<F: FnOnce(&str) -> anyhow::Result<()> + Drop>(
    rt: &HostRuntime,
    help: &str,
    serve: F,
) -> anyhow::Result<()>
    requires { F.IsAlwaysCallable serve }
{
    match asked(rt)? {
        Task::Run(folder) => match run(rt, folder.as_str(), serve) {
            Ok(()) => Ok(()),
            Err(e) => {
                eprintln!(rt; "node: {e}")?;
                Err(e)
            }
        },
        Task::Help => {
            println!(rt; "{help}")?;
            Ok(())
        }
        Task::Usage => {
            eprintln!(rt; "node: one argument, its folder: node FOLDER (node --help says more)")?;
            Err(anyhow!("usage"))
        }
    }
}

// Does what the arguments ask for: serves the folder, which is held against a second program meanwhile, or prints the help. What
// stops the program ends it with status 1.
pub fn attend<F: FnOnce(&str) -> anyhow::Result<()> + Drop>(
    rt: &HostRuntime,
    help: &str,
    serve: F,
) -> ExitCode
    requires { F.IsAlwaysCallable serve }
{
    match done(rt, help, serve) {
        Ok(()) => ExitCode::SUCCESS,
        Err(_) => ExitCode::FAILURE,
    }
}
