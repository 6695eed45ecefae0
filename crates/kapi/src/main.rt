//! The programs of Kapi. `kapi script` plays events from standard input and prints the answers; `kapi audit` answers
//! questions by the policy of a file; `kapi serve` serves requests on ports of this machine; `kapi replay` plays
//! transcripts; `kapi compare`, `kapi who`, `kapi what`, `kapi risks` and `kapi paths` answer questions about policies.
#![tactic(auto)]

mod auditing;
mod beginning;
mod bounded_lines;
mod replaying;
mod serving;

use auditing::run_audit;
use clap::Error;
use kapi_command_line::{Command, CommandFault, command, complaint};
use kapi_commands::{run_check, run_compare, run_paths, run_risks, run_suggest, run_what, run_who};
use kapi_files::{Ending, read_kinds, tell_stopped};
use kapi_index::IndexedPolicy;
use kapi_script::script_run;
use kapi_text::Text;
use replaying::run_replay;
use serving::run_serve;
use std::env::{self, Env};
use std::fs::Files;
use std::io::{self, BufWriter, IsTerminal};
use std::net::{Net, TcpListener, TcpStream};
use std::process::ExitCode;
use std::sync::Wait;
use std::thread::Threads;
use std::time::Clock;

fn main(rt: HostRuntime) -> io::Result<ExitCode> {
    let ended = match named_command(&rt) {
        Ok(command) => run(&rt, &command, rt.stderr().is_terminal()),
        Err(fault) => {
            // Where standard error takes nothing the status still says what was wrong.
            let _unwritten = complain(&rt, fault);
            Ok(Ending::Misused)
        }
    };
    let ending = match ended {
        Ok(ending) => ending,
        Err(error) => tell_stopped(&rt, &error)?,
    };
    Ok(ending.status())
}

/// Runs a command; on a terminal it may show how far it has come.
fn run<
    R: Files
        + Env
        + Input
        + Print
        + Eprint
        + AllocGlobal
        + Wait
        + Threads
        + Clock
        + Clone
        + Drop
        + Send
        + Sync
        + Net<Listener = TcpListener, Stream = TcpStream>
        + 'static,
>(rt: &R, command: &Command, on_terminal: bool) -> io::Result<Ending> {
    match command {
        Command::Script(kinds) => run_script(rt, kinds.as_slice()),
        Command::Audit(files) => run_audit(rt, files, on_terminal),
        Command::Serve(options) => run_serve(rt, options),
        Command::Replay(options) => run_replay(rt, options),
        Command::Compare(words) => run_compare(rt, words),
        Command::Who(words) => run_who(rt, words),
        Command::What(words) => run_what(rt, words),
        Command::Risks(asking) => run_risks(rt, asking),
        Command::Paths(words) => run_paths(rt, words),
        Command::Check(asking, kinds) => run_check(rt, asking, kinds.as_slice()),
        Command::Suggest(words) => run_suggest(rt, words),
        Command::Show(text) => show(rt, text),
    }
}

/// Prints the text of help or of the version.
fn show<R: Print + Eprint>(rt: &R, text: &Error) -> io::Result<Ending> {
    text.print(rt)?;
    Ok(Ending::Done)
}

/// The command that the words of the command line name.
fn named_command<R: Env + AllocGlobal>(rt: &R) -> Result<Command, CommandFault> {
    let words: Vec<String> = env::args(rt)?.collect(rt.alloc())?;
    let borrowed: Vec<&str> = words.iter().map(|word| word.as_str()).collect(rt.alloc())?;
    command(rt.alloc(), borrowed.as_slice())
}

/// What is wrong with the words of the command line.
fn complained<R: Env + AllocGlobal>(rt: &R) -> Result<String, CommandFault> {
    let words: Vec<String> = env::args(rt)?.collect(rt.alloc())?;
    let borrowed: Vec<&str> = words.iter().map(|word| word.as_str()).collect(rt.alloc())?;
    Ok(complaint(rt.alloc(), borrowed.as_slice())?)
}

/// Plays the script on standard input: status 0, or 1 after the fault and its reason on standard error.
fn run_script<R: Files + Input + Print + Eprint + AllocGlobal + Clone + Drop>(
    rt: &R,
    kinds: &[Text],
) -> io::Result<Ending> {
    let Some(table) = read_kinds(rt, kinds)? else {
        return Ok(Ending::Stopped);
    };
    let mut reader = rt.reader();
    let mut writer = BufWriter::new(rt.alloc(), io::writer(rt))?;
    match script_run(
        rt.alloc(),
        table,
        IndexedPolicy::new(rt.alloc()),
        &mut reader,
        &mut writer,
    ) {
        Ok(()) => Ok(Ending::Done),
        Err(fault) => {
            eprintln!(rt; "{fault}")?;
            Ok(Ending::Stopped)
        }
    }
}

/// Says what is wrong with a command line that names no program.
fn complain<R: Env + Eprint + AllocGlobal>(rt: &R, fault: CommandFault) -> io::Result<()> {
    match fault {
        CommandFault::Words => match complained(rt) {
            Ok(complaint) => rt.eprint(complaint),
            Err(fault) => eprintln!(rt; "{fault}"),
        },
        CommandFault::Memory => eprintln!(rt; "{fault}"),
    }
}
