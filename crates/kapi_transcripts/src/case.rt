use crate::wanted::Expected;
use kapi_text::Sequence;

/// A file whose objects a machine begins with, and the line that names it.
#[derive(Drop)]
pub struct Loaded {
    pub number: usize,
    pub name: Sequence<u8>,
}

/// Files of manifests that are read as one policy.
#[derive(Drop)]
pub struct Manifests {
    pub files: Sequence<Loaded>,
    /// Kubernetes' user-facing cluster roles are beneath the files.
    pub defaults: bool,
}

/// What the machine of a case begins with.
#[derive(Drop)]
pub enum Beginning {
    /// The opening objects alone.
    Opening,
    /// The opening objects and those of a file, which has one a line.
    Lines(Loaded),
    /// The objects of manifests alone.
    Manifests(Manifests),
}

/// A line of a case's script, and the line of the transcript that it is made from.
#[derive(Drop)]
pub struct ScriptLine {
    pub number: usize,
    pub text: Sequence<u8>,
}

/// An expectation of a line of the transcript about the answer to the last of the first `events` events of its case.
#[derive(Drop)]
pub struct Expectation {
    pub number: usize,
    pub events: usize,
    pub wanted: Expected,
}

/// A case of a transcript: a script on a machine of its own, and what is wanted of its answers.
#[derive(Drop)]
pub struct Case {
    /// The line that begins it, or the first line if none does.
    pub number: usize,
    pub begins: Beginning,
    /// The files of the kinds that the machine serves besides those of the programs.
    pub kinds: Sequence<Loaded>,
    /// The rights of watches are rechecked at each of their events.
    pub rechecks: bool,
    pub script: Sequence<ScriptLine>,
    pub wants: Sequence<Expectation>,
}
