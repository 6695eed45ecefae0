//! Questions about the policies of files.
use crate::doubts::{Doubts, EMPTY, full_resource};
use crate::policies::{
    Answered, Compared, FilesFault, compare_files, paths_file, risks_file, what_file, who_file,
    who_wanted,
};
use crate::served::has_no_namespace;
use kapi_access::{Form, Holder, Identities, Scope, Shown, question_of, with_default_groups};
use kapi_command_line::{
    Asking, CompareWords, PathsWords, WhatWords, WhoQuestion, WhoWanted, WhoWords,
};
use kapi_files::{Ending, ReadPolicy, print, read_file, read_policy, tell_refused};
use kapi_paths::is_kind;
use kapi_text::{Memory, Text};
use std::alloc::Global;
use std::fs::Files;
use std::io;
use std::thread::Threads;

/// A file of questions that was read, and its name.
#[derive(Clone, Copy)]
struct Source<'a> {
    name: &'a str,
    bytes: &'a [u8],
}

/// What a question names that its policy may not.
#[derive(Clone, Copy)]
enum Named<'a> {
    Nothing,
    Question(&'a WhoWanted),
    Lines(Source<'a>),
    Holder(&'a WhatWords),
    /// To whom paths lead.
    Whom(&'a str),
}

/// Prints what the later policy allows and the earlier does not or, with `--lost`, the reverse: status 0 if there is
/// nothing, 3 if there is something, 4 if the roles of a policy are not settled, or 1 after a line on standard error.
pub fn run_compare<R: Files + Input + Print + Eprint + AllocGlobal + Threads + Sync + Clone + Drop>(
    rt: &R,
    words: &CompareWords,
) -> io::Result<Ending> {
    let asking = &words.after;
    let before = read_policy(rt, words.before.as_str(), &asking.reading)?;
    let after = read_policy(rt, asking.policy.as_str(), &asking.reading)?;
    let (Some(before), Some(after)) = (before, after) else {
        return Ok(Ending::Stopped);
    };
    let before_counts = tell_counts(rt, words.before.as_str(), &before)?;
    let after_counts = tell_counts(rt, asking.policy.as_str(), &after)?;
    if !before_counts || !after_counts {
        return Ok(Ending::Stopped);
    }
    let mut doubts = Doubts::new(rt.alloc());
    doubts.tell(rt, &after)?;
    doubts.tell(rt, &before)?;
    let (old, new) = in_order(words.lost, &before, &after);
    let compared = compare_files(
        rt.alloc(),
        rt,
        asking.form,
        shown(words.atoms),
        identities(words.usual_groups),
        old.lines(),
        new.lines(),
    );
    let doubted = asking.reading.strict && doubts.are_some();
    tell_compared(rt, words, old, new, doubted, compared)
}

/// Two things as they are compared: exchanged if what is lost is asked for.
fn in_order<T>(lost: bool, before: T, after: T) -> (T, T) {
    if lost {
        (after, before)
    } else {
        (before, after)
    }
}

/// Reports how many roles and bindings a policy has, and whether it has any.
fn tell_counts(rt: &impl Eprint, name: &str, policy: &ReadPolicy) -> io::Result<bool> {
    if !policy.has_policy() {
        eprintln!(rt; "{name}: {EMPTY}")?;
        return Ok(false);
    }
    let roles = policy.prepared.roles;
    let bindings = policy.prepared.bindings;
    eprintln!(rt; "{name}: roles: {roles}, bindings: {bindings}")?;
    Ok(true)
}

fn tell_compared<R: Print + Eprint + AllocGlobal>(
    rt: &R,
    words: &CompareWords,
    old: &ReadPolicy,
    new: &ReadPolicy,
    doubted: bool,
    compared: Result<Compared, FilesFault>,
) -> io::Result<Ending> {
    match compared {
        Ok(compared) => {
            print(rt, compared.text.as_slice())?;
            let (before, after) = (words.before.as_str(), words.after.policy.as_str());
            let (before, after) = in_order(words.lost, before, after);
            tell_unsettled(rt, before, compared.before_settled)?;
            tell_unsettled(rt, after, compared.after_settled)?;
            let settled = compared.before_settled && compared.after_settled;
            let ending = Ending::of_comparison(compared.gains).or_doubted(doubted);
            Ok(ending.or_unsettled(settled))
        }
        Err(FilesFault::Memory) => {
            eprintln!(rt; "out of memory")?;
            Ok(Ending::Stopped)
        }
        Err(_refused) => {
            tell_refused(rt, old)?;
            tell_refused(rt, new)?;
            Ok(Ending::Stopped)
        }
    }
}

/// Prints who may do something: status 0, 4 if the roles are not settled, or 1 after a line on standard error.
pub fn run_who<R: Files + Input + Print + Eprint + AllocGlobal + Clone + Drop>(
    rt: &R,
    words: &WhoWords,
) -> io::Result<Ending> {
    let asking = &words.asking;
    let Some(policy) = read_policy(rt, asking.policy.as_str(), &asking.reading)? else {
        return Ok(Ending::Stopped);
    };
    match &words.question {
        WhoQuestion::Words(wanted) => {
            let asked = ask_words(rt, asking.form, policy.lines(), wanted);
            answer(rt, asking, &policy, Named::Question(wanted), asked)
        }
        WhoQuestion::File(file) => {
            let Some(lines) = read_file(rt, file.as_str())? else {
                return Ok(Ending::Stopped);
            };
            let questions = Source {
                name: file.as_str(),
                bytes: lines.as_slice(),
            };
            let asked = who_file(rt.alloc(), asking.form, policy.lines(), questions.bytes);
            answer(rt, asking, &policy, Named::Lines(questions), asked)
        }
    }
}

fn ask_words<R: AllocGlobal>(
    rt: &R,
    form: Form,
    objects: &[u8],
    wanted: &WhoWanted,
) -> Result<Answered, FilesFault> {
    let namespace = wanted.namespace.as_str();
    let scope = if wanted.cluster {
        Scope::Cluster
    } else if namespace.is_empty() {
        Scope::Everywhere
    } else {
        Scope::Namespace(Text::copy_of(rt.alloc(), namespace)?)
    };
    let mut asked = question_of(
        rt.alloc(),
        wanted.verb.as_str(),
        wanted.resource.as_str(),
        scope,
        wanted.name.as_str(),
    )?;
    if namespace.is_empty() && has_no_namespace(&asked.point) {
        asked.scope = Scope::Cluster;
    }
    who_wanted(rt.alloc(), form, objects, &asked)
}

/// Prints an answer about a policy and reports the doubts about it and about the questions: status 0, 4 if the roles
/// are not settled, 1 after a fault, or for a doubt if the words are strict.
fn answer<R: Print + Eprint + AllocGlobal>(
    rt: &R,
    asking: &Asking,
    policy: &ReadPolicy,
    named: Named<'_>,
    asked: Result<Answered, FilesFault>,
) -> io::Result<Ending> {
    let answered = match asked {
        Ok(answered) => answered,
        Err(fault) => return refuse(rt, fault, policy, named),
    };
    print(rt, answered.text.as_slice())?;
    tell_unsettled(rt, asking.policy.as_str(), answered.settled)?;
    let mut doubts = doubts_of(rt, asking.policy.as_str(), policy)?;
    tell_named(rt, &mut doubts, policy, named)?;
    let ending = Ending::Done.or_doubted(asking.reading.strict && doubts.are_some());
    Ok(ending.or_unsettled(answered.settled))
}

/// Prints what a user has: status 0, 4 if the roles are not settled, or 1 after a line on standard error.
pub fn run_what<R: Files + Input + Print + Eprint + AllocGlobal + Clone + Drop>(
    rt: &R,
    words: &WhatWords,
) -> io::Result<Ending> {
    let asking = &words.asking;
    let Some(policy) = read_policy(rt, asking.policy.as_str(), &asking.reading)? else {
        return Ok(Ending::Stopped);
    };
    let holder = holder_of(rt.alloc(), words)?;
    let asked = what_file(rt.alloc(), asking.form, policy.lines(), &holder);
    answer(rt, asking, &policy, Named::Holder(words), asked)
}

/// The named user in the named groups, and in the groups that authentication adds.
fn holder_of(alloc: Global, words: &WhatWords) -> Result<Holder, Memory> {
    let namespace = words.asking.reading.namespace.as_str();
    let within = if namespace.is_empty() {
        None
    } else {
        Some(Text::copy_of(alloc, namespace)?)
    };
    Ok(Holder {
        identity: with_default_groups(alloc, words.user.as_str(), words.groups.as_slice())?,
        within,
    })
}

/// Prints who may gain more than a policy grants: status 0, 4 if the roles are not settled, or 1 after a line on
/// standard error.
pub fn run_risks<R: Files + Input + Print + Eprint + AllocGlobal + Clone + Drop>(
    rt: &R,
    asking: &Asking,
) -> io::Result<Ending> {
    let Some(policy) = read_policy(rt, asking.policy.as_str(), &asking.reading)? else {
        return Ok(Ending::Stopped);
    };
    let asked = risks_file(rt.alloc(), asking.form, policy.lines());
    answer(rt, asking, &policy, Named::Nothing, asked)
}

/// Prints who can become whom by a policy: status 0, 4 if the roles are not settled, or 1 after a line on standard
/// error.
pub fn run_paths<R: Files + Input + Print + Eprint + AllocGlobal + Clone + Drop>(
    rt: &R,
    words: &PathsWords,
) -> io::Result<Ending> {
    for kind in words.without.as_slice() {
        let kind = kind.as_str();
        if !is_kind(kind) {
            eprintln!(rt; "--without {kind}: there is no such kind; kapi paths --help names them")?;
            return Ok(Ending::Misused);
        }
    }
    let asking = &words.asking;
    let Some(policy) = read_policy(rt, asking.policy.as_str(), &asking.reading)? else {
        return Ok(Ending::Stopped);
    };
    let asked = paths_file(rt.alloc(), words, policy.lines());
    answer(rt, asking, &policy, Named::Whom(words.to.as_str()), asked)
}

/// Reports what a question names and the policy does not.
fn tell_named<R: Eprint + AllocGlobal>(
    rt: &R,
    doubts: &mut Doubts,
    policy: &ReadPolicy,
    named: Named<'_>,
) -> io::Result<()> {
    let words = &policy.prepared.words;
    match named {
        Named::Nothing => Ok(()),
        Named::Question(wanted) => {
            let resource = full_resource(rt.alloc(), wanted.resource.as_str())?;
            let (verb, namespace) = (wanted.verb.as_str(), wanted.namespace.as_str());
            doubts.tell_question(rt, words, verb, resource.as_str(), namespace)
        }
        Named::Lines(questions) => doubts.tell_lines(rt, words, questions.bytes),
        Named::Holder(what) => {
            let namespace = what.asking.reading.namespace.as_str();
            let (user, groups) = (what.user.as_str(), what.groups.as_slice());
            doubts.tell_holder(rt, words, user, groups, namespace)
        }
        Named::Whom(to) => doubts.tell_whom(rt, words, to),
    }
}

/// Reports the doubts about a policy of that name.
pub fn doubts_of<R: Eprint + AllocGlobal>(
    rt: &R,
    name: &str,
    policy: &ReadPolicy,
) -> io::Result<Doubts> {
    let mut doubts = Doubts::new(rt.alloc());
    doubts.tell_empty(rt, name, policy)?;
    doubts.tell(rt, policy)?;
    Ok(doubts)
}

fn shown(atoms: bool) -> Shown {
    if atoms { Shown::Atoms } else { Shown::Rules }
}

fn identities(usual: bool) -> Identities {
    if usual {
        Identities::Usual
    } else {
        Identities::Any
    }
}

pub fn tell_unsettled(rt: &impl Eprint, file: &str, settled: bool) -> io::Result<()> {
    if !settled {
        eprintln!(rt; "{file}: the roles are not settled after 64 turns")?;
    }
    Ok(())
}

/// Reports what is wrong with a policy or a question, or that the program is out of memory: status 1.
fn refuse<R: Eprint + AllocGlobal>(
    rt: &R,
    fault: FilesFault,
    policy: &ReadPolicy,
    named: Named<'_>,
) -> io::Result<Ending> {
    match fault {
        FilesFault::First(_) | FilesFault::Second(_) => tell_refused(rt, policy)?,
        FilesFault::Question(line) => {
            if let Named::Lines(questions) = named {
                let name = questions.name;
                eprintln!(rt; "{name}: question line {line}")?;
            }
            eprintln!(rt;
                "  a question is VERB RESOURCE [NAMESPACE [NAME]], with one space between words"
            )?;
        }
        FilesFault::Memory => eprintln!(rt; "out of memory")?,
    }
    Ok(Ending::Stopped)
}
