ghost use Rattle.std.specs.Prelude.{◌≡◌, ◌↔◌, ◌+◌, ◌≤◌, ◌<◌, List, [], ◌∷◌, ◌++◌, drop, fold, length, replicate, true, Err, IfOk, IsOk, MatchResult};
ghost use Rattle.left_right.specs.Sides.{view as view_of};
ghost use Rattle.kapi_publishing.specs.Boards.{fresh, informed};
ghost use Rattle.kapi_publishing.specs.Pages.{Shelf, opening_in, steps_in};
ghost use Rattle.kapi_publishing.specs.Private.Copies.{IsPaged, absorbed, reader_of};
ghost use Rattle.kapi_publishing.specs.Private.Stages.{IsAt, IsNoted, IsPublishedTo, steps_among};
ghost use Rattle.kapi_publishing.specs.Steps.{after};
ghost use Rattle.kapi_publishing.specs.declared.book.Page.{Page as APage};
ghost use Rattle.kapi_publishing.specs.declared.desk.PublishError.TheVariants as refusal;
ghost use Rattle.kapi_publishing.specs.declared.version.Operation.{Operation as AnOperation};
ghost use Rattle.kapi_publishing.specs.declared.version.Operation.TheVariants.{Step as AStep};
ghost use Rattle.kapi_policy.specs.declared.change.PolicyChange.{PolicyChange as AChange};

use crate::book::Book;
use crate::rule::{Opens, PolicyWriter, Publishes, Reports};
use crate::seat::{Seat, Told};
use crate::version::{Operation, Version};
use core::mem::{replace, replace_with};
use kapi_index::IndexedPolicy;
use kapi_policy::PolicyStep;
use kapi_text::Memory;
use left_right::writer::Writer;
use std::alloc::{AllocError, Global};
use std::marker::Model;
use std::snapshot::Snapshot;
use std::sync::Wait;

/// Why a step was not published.
#[derive(Drop)]
pub enum PublishError {
    /// Out of memory: nothing was changed, and the step is handed back.
    Memory(PolicyStep),
    /// The step was taken and waits, and nothing new is published.
    Pending,
}

/// How far the step that waits has come.
#[derive(Drop)]
enum Stage {
    /// No step waits.
    Idle,
    /// The step was taken.
    Taken(Snapshot<PolicyStep>),
    /// Its page is written.
    Written,
    /// The note of its page was taken too.
    Noted,
}

/// Publishes steps of changes of a policy, for seats to see. Contracts see which desk it is, the policy that it opened
/// with, the published steps and the waiting steps. It is not `Drop`: end it by `close`.
pub struct Desk {
    alloc: Global,
    writer: PolicyWriter,
    book: Book,
    stage: Stage,
}

impl Model for Desk {
    ghost use Rattle.std.specs.Prelude.{drop};
    ghost use Rattle.left_right.specs.Sides.{view as view_of};
    ghost use Rattle.kapi_publishing.specs.Boards.{Board};
    ghost use Rattle.kapi_publishing.specs.Private.Stages.{IsAt, IsPublishedTo, board_of};

    ghost Value = { Board };

    ghost view = { λ d. board_of d.writer.desk.shown.value (drop d.writer.behind d.writer.log.items) };

    ghost invariant = { λ d. IsPublishedTo (view_of d.writer.desk.place) d.writer.desk.shown.value d.book × IsAt d.stage (drop d.writer.behind d.writer.log.items) d.book d.writer.desk.shown.value.pages.log };
}

/// The desk notes its book, in a publish of no step. A failed allocation ends the writer.
fn open<R: Wait>(rt: &R, writer: PolicyWriter) -> Result<PolicyWriter, Memory>
    requires none { drop writer.behind writer.log.items ≡ [] }
    ensures { IfOk result (λ w. (view_of w.desk.place ≡ reader_of writer.desk.shown.value.pages.book) × (w.desk.shown.value ≡ writer.desk.shown.value) × (drop w.behind w.log.items ≡ [])) }
{
    let (writer, opened) = writer.publish_as::<Opens, R>(rt);
    match opened {
        Ok(()) => Ok(writer),
        Err(refused) => {
            drop(writer.take(rt));
            Err(refused)
        }
    }
}

/// Publishes the waiting step, whose page is noted, and returns the writer with the outcome.
fn shown<R: Wait>(rt: &R, writer: PolicyWriter) -> (PolicyWriter, Result<(), AllocError>)
    requires paged { IsPaged writer.desk.shown.value }
    requires noted { (shelf : Shelf) × (shelf.book ≡ writer.desk.shown.value.pages.book) × IsNoted (drop writer.behind writer.log.items) shelf writer.desk.shown.value.pages.log }
    ensures { MatchResult result.1 (λ _. (result.0.desk.shown.value ≡ fold absorbed writer.desk.shown.value (drop writer.behind writer.log.items)) × (view_of result.0.desk.place ≡ view_of writer.desk.place) × (drop result.0.behind result.0.log.items ≡ [])) (λ _. (result.0.desk.shown.value ≡ writer.desk.shown.value) × (view_of result.0.desk.place ≡ view_of writer.desk.place) × (drop result.0.behind result.0.log.items ≡ drop writer.behind writer.log.items)) }
{
    writer.publish_as::<Publishes, R>(rt)
}

/// Publishes the step that waits, whose page is noted.
fn show<R: Wait>(rt: &R, writer: &mut PolicyWriter) -> Result<(), AllocError>
    requires paged { IsPaged writer.old.desk.shown.value }
    requires noted { (shelf : Shelf) × (shelf.book ≡ writer.old.desk.shown.value.pages.book) × IsNoted (drop writer.old.behind writer.old.log.items) shelf writer.old.desk.shown.value.pages.log }
    ensures { MatchResult result (λ _. (writer.new.desk.shown.value ≡ fold absorbed writer.old.desk.shown.value (drop writer.old.behind writer.old.log.items)) × (view_of writer.new.desk.place ≡ view_of writer.old.desk.place) × (drop writer.new.behind writer.new.log.items ≡ [])) (λ _. (writer.new.desk.shown.value ≡ writer.old.desk.shown.value) × (view_of writer.new.desk.place ≡ view_of writer.old.desk.place) × (drop writer.new.behind writer.new.log.items ≡ drop writer.old.behind writer.old.log.items)) }
{
    replace_with(writer, rt, |writer, rt| shown(rt, writer))
}

/// Writes the page of a step that was taken.
fn written(book: &mut Book, stage: Stage) -> Stage
    ensures book { book.new.book ≡ book.old.book }
    ensures stage { (waiting : List AnOperation) (shown : List APage) → IsAt stage waiting book.old shown → IsAt result waiting book.new shown }
{
    match stage {
        Stage::Taken(step) => {
            if book.write(&step) {
                Stage::Written
            } else {
                Stage::Taken(step)
            }
        }
        other => other,
    }
}

/// Takes the note of a page that is written.
#[tactic(auto, using(crate::proofs::Stages::steps_noted))]
fn noted(writer: &mut PolicyWriter, book: &Book, stage: Stage) -> Stage
    ensures desk { writer.new.desk ≡ writer.old.desk }
    ensures steps { steps_among (drop writer.new.behind writer.new.log.items) ≡ steps_among (drop writer.old.behind writer.old.log.items) }
    ensures stage { (shown : List APage) → IsAt stage (drop writer.old.behind writer.old.log.items) book.now shown → IsAt result (drop writer.new.behind writer.new.log.items) book.now shown }
{
    match stage {
        Stage::Written => {
            if writer.append(Operation::Note(book.pages())).is_ok() {
                Stage::Noted
            } else {
                Stage::Written
            }
        }
        other => other,
    }
}

/// The step that was not taken.
fn step_of(operation: Operation) -> PolicyStep
    requires { (step : List AChange) × (operation ≡ AStep step) }
    ensures { operation ≡ AStep result }
{
    match operation {
        Operation::Step(step) => step,
        Operation::Note(_pages) => unreachable!(),
    }
}

impl Desk {
    /// A desk that has published no step over this policy, and so many seats, which have seen none. A failed allocation
    /// ends it.
    pub fn new<R: Wait>(
        alloc: Global,
        rt: &R,
        policy: IndexedPolicy,
        seats: usize,
    ) -> Result<(Desk, Vec<Seat>), Memory>
        requires { (1 ≤ seats) × (seats ≤ 16) }
        ensures desk { IfOk result (λ r. (r.0.opening ≡ policy) × (r.0.list ≡ []) × (r.0.waiting ≡ [])) }
        ensures seats { IfOk result (λ r. r.1.items ≡ replicate seats (fresh r.0)) }
    {
        let mut desk = Desk::over(alloc, rt, policy, seats)?;
        match desk.seats(seats) {
            Ok(seats) => Ok((desk, seats)),
            Err(refused) => {
                drop(desk.close(rt));
                Err(refused)
            }
        }
    }

    fn over<R: Wait>(
        alloc: Global,
        rt: &R,
        policy: IndexedPolicy,
        readers: usize,
    ) -> Result<Desk, Memory>
        requires { (1 ≤ readers) × (readers ≤ 16) }
        ensures { IfOk result (λ d. (d.opening ≡ policy) × (d.list ≡ []) × (d.waiting ≡ [])) }
    {
        let book = Book::open(&policy);
        let pages = book.pages();
        let spare = Version {
            policy: policy.copy()?,
            steps: 0,
            pages: pages.again(),
        };
        let first = Version {
            policy,
            steps: 0,
            pages,
        };
        let writer = open(rt, Writer::new(alloc, first, spare, readers)?)?;
        Ok(Desk::with(alloc, writer, book))
    }

    #[tactic(auto, using(crate::proofs::Stages::steps_none))]
    fn with(alloc: Global, writer: PolicyWriter, book: Book) -> Desk
        requires stands { IsPublishedTo (view_of writer.desk.place) writer.desk.shown.value book }
        requires pages { book.pages ≡ writer.desk.shown.value.pages.log }
        requires none { drop writer.behind writer.log.items ≡ [] }
        ensures opening { result.opening ≡ opening_in book.pages }
        ensures list { result.list ≡ steps_in book.pages }
        ensures waiting { result.waiting ≡ [] }
    {
        Desk {
            alloc,
            writer,
            book,
            stage: Stage::Idle,
        }
    }

    #[tactic(auto, using(crate::proofs::Lists::replicate_snoc))]
    fn seats(&mut self, count: usize) -> Result<Vec<Seat>, Memory>
        requires { self.old.list ≡ [] }
        ensures same { self.new ≡ self.old }
        ensures seats { IfOk result (λ s. s.items ≡ replicate count (fresh self.old)) }
    {
        let mut seats = Vec::with_capacity(self.alloc, count)?;
        for _ in 0..count {
            seats.push(self.seat()?)?;
        }
        Ok(seats)
    }

    /// A seat that has seen what is published.
    fn seat(&mut self) -> Result<Seat, Memory>
        ensures same { self.new ≡ self.old }
        ensures told { IfOk result (λ s. s ≡ informed self.old) }
    {
        let mut reader = self.writer.factory().reader()?;
        reader.learn::<Reports>(self.writer.tell::<Reports>());
        Ok(Seat::over(self.alloc, reader, self.tell()))
    }

    /// Publishes a step and returns the number of published steps.
    pub fn publish<R: Wait>(&mut self, rt: &R, step: PolicyStep) -> Result<u64, PublishError>
        requires { self.old.waiting ≡ [] }
        ensures desk { self.new.desk ≡ self.old.desk }
        ensures opening { self.new.opening ≡ self.old.opening }
        ensures steps { MatchResult result (λ n. (self.new.list ≡ self.old.list ++ step ∷ []) × (n ≡ length self.new.list) × (self.new.waiting ≡ [])) (λ _. self.new.list ≡ self.old.list) }
        ensures memory { (back : List AChange) → result ≡ Err (refusal.Memory back) → (self.new ≡ self.old) × (back ≡ step) }
        ensures pending { result ≡ Err refusal.Pending → self.new.waiting ≡ step ∷ [] }
    {
        match self.take(step) {
            Ok(()) => self.retry(rt),
            Err(step) => Err(PublishError::Memory(step)),
        }
    }

    /// Takes a step that is to be published, or hands it back.
    fn take(&mut self, step: PolicyStep) -> Result<(), PolicyStep>
        requires { self.old.waiting ≡ [] }
        ensures { MatchResult result (λ _. self.new ≡ record self.old { waiting = step ∷ [] }) (λ back. (self.new ≡ self.old) × (back ≡ step)) }
    {
        let about = Snapshot::of(&step);
        match self.writer.append(Operation::Step(step)) {
            Ok(()) => {
                self.stage = Stage::Taken(about);
                Ok(())
            }
            Err(refused) => Err(step_of(refused)),
        }
    }

    /// Whether a step waits to be published.
    #[tactic(auto, using(crate::proofs::Stages::pending_at))]
    pub fn pending(&self) -> bool
        ensures { (result ≡ true) ↔ (0 < length self.now.waiting) }
    {
        self.writer.has_pending_operations()
    }

    /// Publishes the step that waits, if there is one, and returns the number of published steps.
    pub fn retry<R: Wait>(&mut self, rt: &R) -> Result<u64, PublishError>
        ensures desk { self.new.desk ≡ self.old.desk }
        ensures opening { self.new.opening ≡ self.old.opening }
        ensures steps { MatchResult result (λ n. (self.new.list ≡ self.old.list ++ self.old.waiting) × (n ≡ length self.new.list) × (self.new.waiting ≡ [])) (λ e. (e ≡ refusal.Pending) × (self.new.list ≡ self.old.list) × (self.new.waiting ≡ self.old.waiting)) }
        ensures none { self.old.waiting ≡ [] → IsOk result × (self.new ≡ self.old) }
    {
        if !self.pending() {
            return Ok(self.writer.published().steps);
        }
        self.ready();
        match self.stage {
            Stage::Noted => {}
            _ => return Err(PublishError::Pending),
        }
        match show(rt, &mut self.writer) {
            Ok(()) => {
                self.stage = Stage::Idle;
                Ok(self.writer.published().steps)
            }
            Err(_refused) => Err(PublishError::Pending),
        }
    }

    /// Writes and notes the page of the step that waits, as far as there is memory.
    fn ready(&mut self)
        ensures { self.new ≡ self.old }
    {
        let stage = replace(&mut self.stage, Stage::Idle);
        let stage = written(&mut self.book, stage);
        self.stage = noted(&mut self.writer, &self.book, stage);
    }

    /// The published steps, for seats to learn.
    pub fn tell(&self) -> Told
        ensures { result ≡ informed self.now }
    {
        Told::of(self.writer.published())
    }

    /// Ends the desk and returns the published policy. Seats answer `Busy` from then on.
    pub fn close<R: Wait>(self, rt: &R) -> IndexedPolicy
        ensures { result ≡ after self.opening self.list }
    {
        let Desk {
            alloc: _alloc,
            writer,
            book: _book,
            stage: _stage,
        } = self;
        Box::into_inner(writer.take(rt)).policy
    }
}
