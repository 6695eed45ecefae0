//! Files and folders that are read, and where what they hold was written.
use crate::stderr::{Plain, tell_unread};
use kapi_lines::as_text;
use kapi_text::{Memory, Sequence, Text};
use serde_json::Value;
use std::alloc::Global;
use std::collections::BTreeSet;
use std::fs::{self, Files};
use std::io::{self, ErrorKind, Read};

/// The largest number of folders that are looked through for one that is named.
const FOLDERS: usize = 10_000;

/// A file that was read: its name, its bytes, and its comments that say where what is below them was written.
#[derive(Drop)]
pub struct Source {
    name: String,
    pub bytes: Vec<u8>,
    marks: Vec<Mark>,
}

/// A comment `#line N "FILE"`: what is below it was written in that line of that file.
#[derive(Drop)]
struct Mark {
    below: usize,
    line: usize,
    file: String,
}

impl Source {
    /// A file of that name.
    pub fn new(alloc: Global, name: &str, bytes: Vec<u8>) -> Result<Source, Memory> {
        Ok(Source {
            name: String::from_str(alloc, name)?,
            marks: marks_in(alloc, bytes.as_slice())?,
            bytes,
        })
    }

    /// The file and the line in which a line of this file was written.
    pub fn place(&self, line: usize) -> (&str, usize) {
        let above = self.marks.partition_point(|mark| mark.below <= line);
        match self.marks.get(above.wrapping_sub(1)) {
            Some(mark) => {
                let behind = line.saturating_sub(mark.below);
                (mark.file.as_str(), mark.line.saturating_add(behind))
            }
            None => (self.name.as_str(), line),
        }
    }
}

fn marks_in(alloc: Global, bytes: &[u8]) -> Result<Vec<Mark>, Memory> {
    let mut marks = Vec::new(alloc);
    let mut below = 2;
    for line in bytes.split(|byte| *byte == b'\n') {
        if let Some(mark) = mark_in(alloc, line, below)? {
            marks.push(mark)?;
        }
        below = below.saturating_add(1);
    }
    Ok(marks)
}

fn mark_in(alloc: Global, line: &[u8], below: usize) -> Result<Option<Mark>, Memory> {
    let words = match line.strip_prefix(b"#line ".as_slice()) {
        Some(words) => as_text(words).unwrap_or(""),
        None => return Ok(None),
    };
    let Some((digits, file)) = words.split_once(' ') else {
        return Ok(None);
    };
    match (digits.parse(), Value::from_slice(alloc, file.as_bytes())) {
        (Ok(line), Ok(Value::String(file))) => Ok(Some(Mark { below, line, file })),
        _ => Ok(None),
    }
}

/// The texts of files.
pub fn texts_of(alloc: Global, sources: &[Source]) -> Result<Vec<&[u8]>, Memory> {
    let mut texts: Vec<&[u8]> = Vec::new(alloc);
    for source in sources {
        texts.push(source.bytes.as_slice())?;
    }
    Ok(texts)
}

/// The texts of a file, or of the files of a folder; none if they cannot be read.
pub fn read_texts<R: Files + Input + AllocGlobal + Clone + Drop>(
    rt: &R,
    path: &str,
) -> io::Result<Option<Vec<Sequence<u8>>>> {
    let Ok(members) = members_of(rt, path) else {
        return Ok(None);
    };
    let mut texts = Vec::new(rt.alloc());
    for name in members.read.iter() {
        match read_member(rt, path, name.as_str()) {
            Ok(bytes) => texts.push(Sequence::new(bytes))?,
            Err(_unread) => return Ok(None),
        }
    }
    Ok(Some(texts))
}

/// Reads a file, the files of a folder and of those in it, or standard input, which is named `-`: whether all can be
/// read, after lines on standard error if not. What a folder holds besides is named there; with `strict` it is a fault.
pub fn read_named<R: Files + Input + Eprint + AllocGlobal + Clone + Drop>(
    rt: &R,
    path: &str,
    strict: bool,
    sources: &mut Vec<Source>,
) -> io::Result<bool> {
    let members = match members_of(rt, path) {
        Ok(members) => members,
        Err(error) => {
            tell_unread(rt, path, &error)?;
            return Ok(false);
        }
    };
    let mut has_others = false;
    for name in members.others.iter() {
        if !is_hidden(path, name.as_str()) {
            let name = Plain(name.as_str());
            eprintln!(rt; "not read: {name}")?;
            has_others = true;
        }
    }
    for name in members.read.iter() {
        match read_member(rt, path, name.as_str()) {
            Ok(bytes) => sources.push(Source::new(rt.alloc(), name.as_str(), bytes)?)?,
            Err(error) => {
                tell_unread(rt, name.as_str(), &error)?;
                return Ok(false);
            }
        }
    }
    Ok(!strict || !has_others)
}

/// The bytes of standard input.
pub fn read_input<R: Input + AllocGlobal>(rt: &R) -> io::Result<Vec<u8>> {
    let mut bytes = Vec::new(rt.alloc());
    let _length = rt.reader().read_to_end(&mut bytes)?;
    Ok(bytes)
}

/// The bytes of what is named, or of a member of it, which is no FIFO and no device.
fn read_member<R: Files + Input + AllocGlobal>(
    rt: &R,
    path: &str,
    name: &str,
) -> io::Result<Vec<u8>> {
    if name == "-" {
        return read_input(rt);
    }
    if name != path && !fs::metadata(rt, name)?.is_file() {
        return Err(io::Error::from(ErrorKind::InvalidInput));
    }
    fs::read(rt, name)
}

/// The files that are read of what is named, in the order of their names, and those that are not.
#[derive(Drop)]
struct Members {
    read: Vec<String>,
    others: Vec<String>,
}

fn members_of<R: Files + AllocGlobal + Clone + Drop>(rt: &R, path: &str) -> io::Result<Members> {
    let mut members = Members {
        read: Vec::new(rt.alloc()),
        others: Vec::new(rt.alloc()),
    };
    let name = String::from_str(rt.alloc(), path)?;
    if path == "-" || !fs::metadata(rt, path)?.is_dir() {
        members.read.push(name)?;
        return Ok(members);
    }
    let mut folders = Vec::new(rt.alloc());
    folders.push(name)?;
    let mut seen = BTreeSet::new(rt.alloc());
    for _ in 0..FOLDERS {
        let Some(folder) = folders.pop() else {
            members.read.sort()?;
            members.others.sort()?;
            return Ok(members);
        };
        // A folder to which links lead is looked into once.
        let place = fs::canonicalize(rt, folder.as_str())?;
        if seen.insert(Text::copy_of(rt.alloc(), place.as_str())?)? {
            look_into(rt, folder.as_str(), &mut folders, &mut members)?;
        }
    }
    Err(io::Error::from(ErrorKind::FilesystemLoop))
}

/// Takes the members of a folder, folders to look into later among them. Files of YAML are read, so that they are
/// refused and not passed over.
fn look_into<R: Files + AllocGlobal + Clone + Drop>(
    rt: &R,
    folder: &str,
    folders: &mut Vec<String>,
    members: &mut Members,
) -> io::Result<()> {
    for entry in fs::read_dir(rt, folder)? {
        let entry = entry?;
        let name = entry.file_name();
        let separator = if folder.ends_with('/') { "" } else { "/" };
        let path = format!(in rt.alloc(); "{folder}{separator}{name}")?;
        // A link that leads nowhere is read, and so is a fault.
        if fs::metadata(rt, path.as_str()).is_ok_and(|found| found.is_dir()) {
            folders.push(path)?;
        } else if is_manifest(name) {
            members.read.push(path)?;
        } else {
            members.others.push(path)?;
        }
    }
    Ok(())
}

/// Whether a member of a folder is hidden there, or in a hidden folder.
fn is_hidden(path: &str, member: &str) -> bool {
    match member.strip_prefix(path) {
        Some(below) => below.contains("/.") || below.starts_with('.'),
        None => false,
    }
}

/// Whether a file of that name is read if its folder is.
fn is_manifest(name: &str) -> bool {
    [".json", ".jsonl", ".yaml", ".yml"]
        .iter()
        .any(|end| name.ends_with(*end))
}
