ghost use Rattle.std.specs.Prelude.{◌≡◌};
ghost use Rattle.kapi_serve.specs.Private.Progresses.{both};

/// The result of some work on connections.
#[derive(Clone, Copy, PartialEq, Eq)]
pub(crate) enum Progress {
    /// Something was done.
    Made,
    /// Nothing was to be done.
    Still,
    /// Nothing was done, and something may be left: there was no memory for it, or too much is yet to be sent.
    Starved,
}

impl Progress {
    /// The results of two pieces of work as one: `Made` comes first, then `Starved`.
    pub(crate) fn and(self, other: Progress) -> Progress
        ensures { result ≡ both self other }
    {
        match (self, other) {
            (Progress::Made, _) => Progress::Made,
            (Progress::Still, progress) => progress,
            (Progress::Starved, Progress::Made) => Progress::Made,
            (Progress::Starved, _) => Progress::Starved,
        }
    }
}
