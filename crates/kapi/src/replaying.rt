//! Transcripts, played.
use kapi_command_line::ReplayOptions;
use kapi_files::{Ending, KUBERNETES, read_file, read_texts, tell_unread};
use kapi_kinds::kubernetes_kinds;
use kapi_replay::{
    LoadedFile, NamedFile, Outcome, Transcript, are_sure, are_well, junit_text, loaded_names,
    replay_run,
};
use kapi_text::{Memory, Sequence, Text};
use std::alloc::Global;
use std::fs::{self, Files};
use std::io::{self, BufWriter, Write};
use std::str;
use std::sync::Wait;

/// Plays the transcripts and prints the outcome of each: status 0 if each checks something and every answer is as
/// wanted, else 1.
pub fn run_replay<R: Files + Input + Print + Eprint + AllocGlobal + Wait + Clone + Drop>(
    rt: &R,
    options: &ReplayOptions,
) -> io::Result<Ending> {
    let mut transcripts = Vec::new(rt.alloc());
    for name in options.files.as_slice() {
        let Some(bytes) = read_file(rt, name.as_str())? else {
            return Ok(Ending::Stopped);
        };
        transcripts.push(transcript(rt, name.as_str(), bytes)?)?;
    }
    play(rt, transcripts.as_slice(), options)
}

fn play<R: Files + Print + Eprint + AllocGlobal + Wait>(
    rt: &R,
    transcripts: &[Transcript],
    options: &ReplayOptions,
) -> io::Result<Ending> {
    let mut writer = BufWriter::new(rt.alloc(), io::writer(rt))?;
    let played = replay_run(rt.alloc(), rt, transcripts, options.write, &mut writer);
    writer.flush()?;
    match played {
        Ok(outcomes) => end(rt, transcripts, outcomes.as_slice(), options),
        Err(fault) => {
            eprintln!(rt; "{fault}")?;
            Ok(Ending::Stopped)
        }
    }
}

/// Writes the outcomes as JUnit has them, if a file is named for it.
fn end<R: Files + Eprint + AllocGlobal>(
    rt: &R,
    transcripts: &[Transcript],
    outcomes: &[Outcome],
    options: &ReplayOptions,
) -> io::Result<Ending> {
    if let Some(file) = &options.junit {
        let text = junit_text(rt.alloc(), transcripts, outcomes)?;
        if let Err(error) = fs::write(rt, file.as_str(), text.as_bytes()) {
            return tell_unread(rt, file.as_str(), &error);
        }
    }
    for outcome in outcomes {
        tell_doubts(rt, outcome)?;
    }
    let doubted = options.strict && !are_sure(outcomes);
    Ok(Ending::of_replay(are_well(outcomes)).or_doubted(doubted))
}

/// Reports each expected 403 for a resource that is not served.
fn tell_doubts(rt: &impl Eprint, outcome: &Outcome) -> io::Result<()> {
    let name = outcome.name.as_str();
    for doubt in outcome.doubts.as_slice() {
        let (number, resource) = (doubt.number, doubt.resource.as_str());
        eprintln!(rt;
            "{name}:{number}: the resource {resource} is not served: this 403 says nothing about a rule"
        )?;
    }
    Ok(())
}

/// A transcript and the files that it names, as far as they can be read.
fn transcript<R: Files + Input + AllocGlobal + Clone + Drop>(
    rt: &R,
    name: &str,
    bytes: Vec<u8>,
) -> io::Result<Transcript> {
    let mut loads = Vec::new(rt.alloc());
    for loaded in loaded_names(rt.alloc(), bytes.as_slice())?.iter() {
        push_load(rt, &mut loads, name, loaded.as_slice())?;
    }
    Ok(Transcript {
        file: named(rt.alloc(), name, bytes)?,
        loads: Sequence::new(loads),
    })
}

fn named(alloc: Global, name: &str, bytes: Vec<u8>) -> Result<NamedFile, Memory> {
    Ok(NamedFile {
        name: Text::copy_of(alloc, name)?,
        bytes: Sequence::new(bytes),
    })
}

/// Reads what a transcript names, unless it was read; what cannot be read is left out.
fn push_load<R: Files + Input + AllocGlobal + Clone + Drop>(
    rt: &R,
    loads: &mut Vec<LoadedFile>,
    transcript: &str,
    name: &[u8],
) -> io::Result<()> {
    let Ok(name) = str::from_utf8(name) else {
        return Ok(());
    };
    if loads.iter().any(|file| file.name.as_str() == name) {
        return Ok(());
    }
    let path = path_of(rt.alloc(), transcript, name)?;
    let read = match read_texts(rt, path.as_str())? {
        None if name == KUBERNETES => Some(common_kinds(rt.alloc())?),
        read => read,
    };
    if let Some(texts) = read {
        loads.push(LoadedFile {
            name: Text::copy_of(rt.alloc(), name)?,
            texts: Sequence::new(texts),
        })?;
    }
    Ok(())
}

/// The common kinds of Kubernetes, which have a name of their own if no file has it.
fn common_kinds(alloc: Global) -> Result<Vec<Sequence<u8>>, Memory> {
    let mut bytes = Vec::new(alloc);
    bytes.extend_from_slice(kubernetes_kinds().as_bytes())?;
    let mut texts = Vec::new(alloc);
    texts.push(Sequence::new(bytes))?;
    Ok(texts)
}

/// The path of a file that a transcript names: in the transcript's folder, or for standard input in the working folder.
fn path_of(alloc: Global, transcript: &str, name: &str) -> Result<String, Memory> {
    if name.starts_with('/') || transcript.starts_with("/dev/") {
        return String::from_str(alloc, name);
    }
    match transcript.rsplit_once('/') {
        Some((folder, _file)) => format!(in alloc; "{folder}/{name}"),
        None => String::from_str(alloc, name),
    }
}
