ghost use Rattle.std.specs.Prelude.{◌≡◌, true, length};
ghost use Rattle.kapi_command_line.specs.Numbers.{are_few, is_first};
ghost use Rattle.kapi_command_line.specs.declared.program.CommandFault.TheVariants.{Memory as NoMemory};

use clap::Error as Shown;
use kapi_lines::Form;
use kapi_model::Identity;
use kapi_text::{Sequence, Text};
use std::alloc::{AllocError, AllocFailed};
use std::io;
use thiserror::Error;

/// What the command line asks for.
#[derive(Drop)]
pub enum Command {
    /// `kapi script`: events on standard input, answers on standard output, on a machine that serves the kinds of
    /// files, by their names.
    Script(Sequence<Text>),
    /// `kapi audit`: the questions of a file, answered by the policy of another.
    Audit(AuditFiles),
    /// `kapi serve`: requests on ports of this machine.
    Serve(ServeOptions),
    /// `kapi replay`: transcripts, whose answers are compared with the wanted ones.
    Replay(ReplayOptions),
    /// `kapi compare`: what a policy allows that another did not.
    Compare(CompareWords),
    /// `kapi who`: who may do something by a policy.
    Who(WhoWords),
    /// `kapi what`: what a user has by a policy.
    What(WhatWords),
    /// `kapi risks`: who may gain more than a policy grants.
    Risks(Asking),
    /// `kapi paths`: who can become whom.
    Paths(PathsWords),
    /// `kapi check`: what dangles in a policy, where the kinds of files are served too, by their names.
    Check(Asking, Sequence<Text>),
    /// `kapi suggest`: the least roles for what was used.
    Suggest(SuggestWords),
    /// `--help`, `help` or `--version`: the text that is asked for.
    Show(Shown),
}

/// How the files of a policy are read as manifests.
#[derive(Drop)]
pub struct Reading {
    /// Files that are read as one with the policy, by their names.
    pub with: Sequence<Text>,
    /// Whether Kubernetes' user-facing roles stand beneath the files.
    pub defaults: bool,
    /// The namespace of objects that live in one and name none; empty if none is given.
    pub namespace: Text,
    /// Whether a doubt about a policy ends with status 1.
    pub strict: bool,
}

/// What is common to the programs that ask about a policy.
#[derive(Drop)]
pub struct Asking {
    /// The name of the policy's file.
    pub policy: Text,
    pub reading: Reading,
    pub form: Form,
}

/// The policies that are compared.
#[derive(Drop)]
pub struct CompareWords {
    /// The name of the earlier policy's file.
    pub before: Text,
    /// The later policy.
    pub after: Asking,
    /// Whether the question is about identities with the groups that authentication gives them.
    pub usual_groups: bool,
    /// Whether each missing permission has a line of its own, and not each rule.
    pub atoms: bool,
    /// Whether the two policies change places.
    pub lost: bool,
}

/// What is asked of a policy.
#[derive(Drop)]
pub enum WhoQuestion {
    Words(WhoWanted),
    /// A file of questions, by its name.
    File(Text),
}

/// The words of a question; the namespace and the name are empty if they are left out.
#[derive(Drop)]
pub struct WhoWanted {
    pub verb: Text,
    pub resource: Text,
    pub namespace: Text,
    /// Whether the question is cluster-wide. If it is not and has no namespace, it is about all scopes.
    pub cluster: bool,
    pub name: Text,
}

/// The policy that is asked who may do something.
#[derive(Drop)]
pub struct WhoWords {
    pub asking: Asking,
    pub question: WhoQuestion,
}

/// The arguments of `kapi what`: the policy, the user, and the groups of the user.
#[derive(Drop)]
pub struct WhatWords {
    pub asking: Asking,
    pub user: Text,
    pub groups: Sequence<Text>,
}

/// The policy that is asked who can become whom.
#[derive(Drop)]
pub struct PathsWords {
    pub asking: Asking,
    /// To whom the printed paths lead; empty if all paths are printed.
    pub to: Text,
    /// The kinds of rights that are left out.
    pub without: Sequence<Text>,
}

/// What was used, and the policy that may allow it.
#[derive(Drop)]
pub struct SuggestWords {
    /// The name of the file of uses.
    pub uses: Text,
    /// Whether the uses are a cluster's audit log, and not questions.
    pub log: bool,
    /// The name of the policy's file, empty if there is none.
    pub policy: Text,
    pub reading: Reading,
    /// Whether one list is printed, and not an object a line.
    pub list: bool,
}

/// The files of an audit, by their names, and how many threads answer.
#[derive(Drop)]
pub struct AuditFiles {
    pub policy: Text,
    pub questions: Text,
    /// The files of kinds, by their names.
    pub kinds: Sequence<Text>,
    /// Whether the questions are a cluster's audit log.
    pub log: bool,
    /// What is printed of a log.
    pub form: Form,
    /// How the policy is read if it is manifests; else it is lines.
    pub manifests: Option<Reading>,
    /// The number of threads, 1 to 16.
    pub readers: usize,
    ghost few: { are_few readers ≡ true },
}

/// The transcripts to play, by their names, and whether they are rewritten with the actual answers.
#[derive(Drop)]
pub struct ReplayOptions {
    /// The names of the transcripts, one or more, in the order of the words.
    pub files: Sequence<Text>,
    pub write: bool,
    /// An expected 403 for a resource that is not served ends the program with status 1.
    pub strict: bool,
    /// The file that the outcomes are written to as JUnit has them, by its name.
    pub junit: Option<Text>,
}

/// What a server loads, and the ports that it serves.
#[derive(Drop)]
pub struct ServeOptions {
    /// The files of kinds, by their names.
    pub kinds: Sequence<Text>,
    /// The file of the objects that are stored at first, by its name.
    pub load: Option<Text>,
    /// The manifests of the objects that are stored at first, in place of such a file.
    pub manifests: Option<Reading>,
    /// The revision after which the server's begin, at most 281,474,976,710,650; none if the clock gives it.
    pub first_revision: Option<u64>,
    /// The rights of a watch are rechecked at each of its events.
    pub recheck: bool,
    /// The ports, 1 to 16, in the order of the words.
    pub listens: Sequence<Listen>,
    /// The port on which questions are answered, 1 to 65,535.
    pub answer: Option<u16>,
    /// The number of threads that answer questions.
    pub readers: usize,
    /// Whether a number of threads is specified without a port for questions.
    pub idle_readers: bool,
    ghost first: { is_first first_revision ≡ true },
    ghost few: { are_few (length listens) ≡ true },
    ghost threads: { are_few readers ≡ true },
}

/// A port of 127.0.0.1, and the identity of each of its clients.
#[derive(Drop)]
pub struct Listen {
    /// The number of the port; a free one is taken for 0.
    pub port: u16,
    pub identity: Identity,
}

/// Why a command line was not understood.
#[derive(Clone, Copy, Debug, PartialEq, Eq, Error)]
pub enum CommandFault {
    #[error("the words of the command line are not understood; try 'kapi --help'")]
    Words,
    #[error("out of memory")]
    Memory,
}

impl From<AllocError> for CommandFault {
    ghost from_gives = { λ _ e. e ≡ NoMemory };

    fn from(_refused: AllocError) -> CommandFault {
        CommandFault::Memory
    }
}

impl<T: Drop> From<AllocFailed<T>> for CommandFault {
    ghost use Rattle.std.specs.Prelude.{◌≡◌};
    ghost use Rattle.kapi_command_line.specs.declared.program.CommandFault.TheVariants.{Memory as NoMemory};

    ghost from_gives = { λ _ e. e ≡ NoMemory };

    fn from(_failed: AllocFailed<T>) -> CommandFault {
        CommandFault::Memory
    }
}

/// The words could not be read: one is no UTF-8, or an allocation fails.
impl From<io::Error> for CommandFault {
    fn from(error: io::Error) -> CommandFault {
        match error.kind() {
            io::ErrorKind::OutOfMemory => CommandFault::Memory,
            _ => CommandFault::Words,
        }
    }
}
