//! How a program ends, and its exit status.
ghost use Rattle.std.specs.Prelude.{◌≡◌, if◌then◌else◌};
ghost use Rattle.kapi_files.specs.declared.ending.Ending.TheVariants.{Doubted, Unsettled};
ghost use Rattle.std.specs.Process.{exit_status};
ghost use Rattle.kapi_files.specs.Endings.{compared_as, played_as, status_of};

use std::process::ExitCode;

/// How a program ends.
#[derive(Clone, Copy, PartialEq, Eq)]
pub enum Ending {
    /// What was asked for is done.
    Done,
    /// An answer of a transcript is not the wanted one, or a transcript wants none.
    Differs,
    /// A file, a line of one, the memory, the system, or a failed write ended the run.
    Stopped,
    /// There is a doubt about a policy, and the words of the command line are strict.
    Doubted,
    /// Roles of a policy still change after the last turn, so an answer may not hold.
    Unsettled,
    /// The words of the command line are not understood.
    Misused,
    /// Somebody gains by the other policy.
    Gains,
    /// Something dangles in a policy.
    Dangles,
    /// A policy decides differently from an audit log.
    Differing,
    /// A port cannot be listened on.
    Unheard,
    /// The server cannot wait for its clients any more.
    Adrift,
}

impl Ending {
    /// The ending of a comparison.
    pub fn of_comparison(gains: bool) -> Ending
        ensures { result ≡ compared_as gains }
    {
        if gains { Ending::Gains } else { Ending::Done }
    }

    /// `Doubted` if `doubted` is set, else this ending.
    pub fn or_doubted(self, doubted: bool) -> Ending
        ensures { result ≡ (if doubted then Doubted else self) }
    {
        if doubted { Ending::Doubted } else { self }
    }

    /// `Unsettled` if the roles are not settled, else this ending.
    pub fn or_unsettled(self, settled: bool) -> Ending
        ensures { result ≡ (if settled then self else Unsettled) }
    {
        if settled { self } else { Ending::Unsettled }
    }

    /// The ending of transcripts that were played.
    pub fn of_replay(well: bool) -> Ending
        ensures { result ≡ played_as well }
    {
        if well { Ending::Done } else { Ending::Differs }
    }

    /// The exit status.
    pub fn status(self) -> ExitCode
        ensures { exit_status result ≡ status_of self }
    {
        match self {
            Ending::Done => ExitCode::from(0),
            Ending::Differs => ExitCode::from(1),
            Ending::Stopped | Ending::Doubted => ExitCode::from(1),
            Ending::Misused => ExitCode::from(2),
            Ending::Gains | Ending::Dangles | Ending::Differing => ExitCode::from(3),
            Ending::Unheard => ExitCode::from(3),
            Ending::Adrift | Ending::Unsettled => ExitCode::from(4),
        }
    }
}
