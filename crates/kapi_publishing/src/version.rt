use crate::book::Pages;
use kapi_index::IndexedPolicy;
use kapi_policy::PolicyStep;
use left_right::Absorb;
use std::alloc::AllocError;

/// A policy, how many steps it has had, and their pages in the desk's book.
#[derive(Drop)]
pub(crate) struct Version {
    pub(crate) policy: IndexedPolicy,
    pub(crate) steps: u64,
    pub(crate) pages: Pages,
}

/// What changes a copy: first a step, then the note of its page. A step that a failed allocation refuses has no page
/// yet, and is handed back.
#[derive(Drop)]
pub(crate) enum Operation {
    Step(PolicyStep),
    Note(Pages),
}

impl Absorb<Operation> for Version {
    ghost use Rattle.kapi_publishing.specs.Private.Copies.{absorbed};

    type State = Version;

    ghost state = { λ v. v };

    ghost applied = { absorbed };

    /// Makes the whole step, or nothing. Once 2^64 - 1 steps are counted, no further one is made.
    fn absorb_first(&mut self, operation: &Operation, _other: &Version) -> Result<(), AllocError> {
        match operation {
            Operation::Step(step) => {
                if self.steps == u64::MAX {
                    return Err(AllocError);
                }
                step.apply_to(&mut self.policy)?;
                self.steps += 1;
            }
            Operation::Note(pages) => self.pages = pages.again(),
        }
        Ok(())
    }
}
