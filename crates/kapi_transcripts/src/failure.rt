use kapi_text::{Sequence, Text};

/// An answer that is not as wanted.
#[derive(Drop)]
pub struct Difference {
    /// The line that wants another answer.
    pub number: usize,
    /// The line of the answered event; 0 if there is none.
    pub asked: usize,
    /// How many events of the case come before the line.
    pub events: usize,
    pub answer: Sequence<u8>,
    /// Which rule allows the request, or which permission is missing; empty if that is not known.
    pub reason: Text,
}

/// A difference from what a transcript wants.
#[derive(Drop)]
pub enum Failure {
    /// An answer is not as wanted.
    Differs(Difference),
    /// This line has no known form, for this reason.
    NoForm(usize, Text),
    /// The file that this line names is not there.
    NoFile(usize),
    /// What this line names holds no kind.
    NoKind(usize),
    /// Nothing is wanted in the case that begins at this line.
    NoCheck(usize),
    /// A file is not loaded: the line of the transcript that names it, the line of the file at fault, and the reason.
    NotLoaded(usize, usize, Text),
    /// The manifests that this line names are not loaded: `FILE:LINE: REASON` of the first fault, and how many follow.
    BadManifests(usize, Sequence<u8>),
}

/// What a line of a transcript wants of an answer, by the number of the line.
#[derive(Clone, Copy, PartialEq, Eq)]
pub struct Check {
    pub number: usize,
    /// The case of the line was played, and the answer compared.
    pub compared: bool,
}

/// An expected 403 for a resource that is not served: every identity gets it, unless a rule with `*` allows the
/// request.
#[derive(Drop)]
pub struct Doubt {
    pub number: usize,
    pub resource: Text,
}

/// The outcome of a transcript.
#[derive(Drop)]
pub struct Outcome {
    pub name: Text,
    pub checks: Sequence<Check>,
    pub failures: Sequence<Failure>,
    pub doubts: Sequence<Doubt>,
}
