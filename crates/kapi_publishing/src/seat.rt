ghost use Rattle.std.specs.Prelude.{◌≡◌, ◌+◌, length, Err, IfOk, IfSome, None, true};
ghost use Rattle.left_right.specs.Sides.{view as view_of};
ghost use Rattle.kapi_policy.specs.Decided.{decided};
ghost use Rattle.kapi_publishing.specs.Boards.{chair, longer, seat_decision};
ghost use Rattle.kapi_publishing.specs.Laws.{Agree};
ghost use Rattle.kapi_publishing.specs.Pages.{opening_in, steps_in};
ghost use Rattle.kapi_publishing.specs.Private.Stages.{IsSeated};
ghost use Rattle.kapi_publishing.specs.Rule.{Begins};
ghost use Rattle.kapi_publishing.specs.Steps.{after};
ghost use Rattle.kapi_publishing.specs.declared.seat.SeatError.TheVariants as refusal;

use crate::book::{Pages, compare};
use crate::decision::SeatDecision;
use crate::rule::{Enters, PolicyReader};
use crate::version::Version;
use core::mem::replace_with;
use kapi_model::Identity;
use kapi_policy::Policy;
use kapi_rules::Point;
use kapi_text::Memory;
use std::alloc::Global;
use std::marker::Model;

/// Why a seat did not answer.
#[derive(Clone, Copy, PartialEq, Eq)]
pub enum SeatError {
    /// The desk is closed.
    Busy,
    /// An allocation fails.
    Memory,
}

/// What a desk reports to seats: the published steps. It takes no memory. Contracts see it as a seat that has seen
/// them.
#[derive(Drop)]
pub struct Told {
    pages: Pages,
    count: u64,
}

impl Model for Told {
    ghost use Rattle.std.specs.Prelude.{◌≡◌, ◌+◌, length};
    ghost use Rattle.kapi_publishing.specs.Boards.{Chair, chair};

    ghost Value = { Chair };

    ghost view = { λ t. chair t.pages.book t.pages.log };

    ghost invariant = { λ t. length t.pages.log ≡ t.count + 1 };
}

impl Told {
    pub(crate) fn of(version: &Version) -> Told
        requires { length version.now.pages.log ≡ version.now.steps + 1 }
        ensures { result ≡ chair version.now.pages.book version.now.pages.log }
    {
        Told {
            pages: version.pages.again(),
            count: version.steps,
        }
    }
}

/// One reader of a desk's published policy. Contracts see which desk it is of, the policy at the desk's opening and the
/// published steps that the seat has seen.
#[derive(Drop)]
pub struct Seat {
    alloc: Global,
    reader: PolicyReader,
    pages: Pages,
    count: u64,
}

impl Model for Seat {
    ghost use Rattle.left_right.specs.Sides.{view as view_of};
    ghost use Rattle.kapi_publishing.specs.Boards.{Chair, chair};
    ghost use Rattle.kapi_publishing.specs.Private.Stages.{IsSeated};

    ghost Value = { Chair };

    ghost view = { λ s. chair s.pages.book s.pages.log };

    ghost invariant = { λ s. IsSeated (view_of s.reader.place) s.pages.book s.pages.log s.count };
}

#[derive(Drop)]
struct Question<'i, 'n, 'p> {
    alloc: Global,
    identity: &'i Identity,
    namespace: &'n str,
    point: &'p Point,
}

/// The answer of one version.
#[derive(Drop)]
struct VersionAnswer {
    pages: Pages,
    count: u64,
    decision: Result<SeatDecision, Memory>,
}

fn answer(version: &Version, question: &Question<'_, '_, '_>) -> VersionAnswer
    ensures pages { (result.pages ≡ version.now.pages) × (result.count ≡ version.now.steps) }
    ensures decision { IfOk result.decision (λ d. seat_decision d ≡ decided version.now.policy question.now.identity.now question.now.namespace.now question.now.point.now) }
{
    let decision = version
        .policy
        .decide(question.identity, question.namespace, question.point);
    VersionAnswer {
        pages: version.pages.again(),
        count: version.steps,
        decision: SeatDecision::of(question.alloc, &decision),
    }
}

/// The answer of the published policy, or none if the desk is closed.
fn ask(
    reader: PolicyReader,
    question: Question<'_, '_, '_>,
) -> (PolicyReader, Option<VersionAnswer>)
    ensures reader { view_of result.0.place ≡ view_of reader.place }
    ensures pages { IfSome result.1 (λ a. ((view_of reader.place).knows ≡ true → a.pages.book ≡ (view_of reader.place).book) × (length a.pages.log ≡ a.count + 1)) }
    ensures answer { IfSome result.1 (λ a. IfOk a.decision (λ d. seat_decision d ≡ decided (after (opening_in a.pages.log) (steps_in a.pages.log)) question.entry.identity.now question.entry.namespace.now question.entry.point.now)) }
{
    match reader.enter_as::<Enters>() {
        Ok(reading) => {
            let asked = answer(reading.get(), &question);
            (reading.leave(), Some(asked))
        }
        Err(reader) => (reader, None),
    }
}

impl Seat {
    pub(crate) fn over(alloc: Global, reader: PolicyReader, told: Told) -> Seat
        requires { ((view_of reader.place).knows ≡ true) × ((view_of reader.place).book ≡ told.desk) }
        ensures { result ≡ told }
    {
        let Told { pages, count } = told;
        Seat {
            alloc,
            reader,
            pages,
            count,
        }
    }

    /// Takes the reported list for the seat's own if it is the longer one.
    pub fn learn(&mut self, told: &Told)
        requires { told.now.desk ≡ self.old.desk }
        ensures desk { self.new.desk ≡ self.old.desk }
        ensures opening { self.new.opening ≡ self.old.opening }
        ensures seen { self.new.seen ≡ longer self.old.seen told.now.seen }
        ensures agree { Agree self.old told.now }
    {
        self.reports_agree(told);
        if self.count < told.count {
            self.pages = told.pages.again();
            self.count = told.count;
        }
    }

    /// Decides whether the identity may do this in the namespace, by the policy after the published steps that are then
    /// seen, and returns their number too. The steps seen before are among them, and no answer changes those.
    pub fn review(
        &mut self,
        identity: &Identity,
        namespace: &str,
        point: &Point,
    ) -> Result<(SeatDecision, u64), SeatError>
        ensures desk { self.new.desk ≡ self.old.desk }
        ensures opening { self.new.opening ≡ self.old.opening }
        ensures seen { Begins self.old.seen self.new.seen }
        ensures answer { IfOk result (λ r. (seat_decision r.0 ≡ decided (after self.new.opening self.new.seen) identity.now namespace.now point.now) × (r.1 ≡ length self.new.seen)) }
        ensures busy { result ≡ Err refusal.Busy → self.new ≡ self.old }
    {
        let question = Question {
            alloc: self.alloc,
            identity,
            namespace,
            point,
        };
        let asked = replace_with(&mut self.reader, question, |reader, question| {
            ask(reader, question)
        });
        match asked {
            Some(asked) => self.see(asked),
            None => Err(SeatError::Busy),
        }
    }

    /// Sees the pages of an answer. A copy with fewer of them than the seat has seen is not shown any more, so its
    /// answer would be none: that it never comes is what the copies do, and no contract of theirs says it.
    fn see(&mut self, asked: VersionAnswer) -> Result<(SeatDecision, u64), SeatError>
        requires { (asked.pages.book ≡ self.old.desk) × (length asked.pages.log ≡ asked.count + 1) }
        ensures desk { self.new.desk ≡ self.old.desk }
        ensures opening { self.new.opening ≡ self.old.opening }
        ensures seen { Begins self.old.seen self.new.seen }
        ensures answer { IfOk result (λ r. (Ok r.0 ≡ asked.decision) × (self.new ≡ chair asked.pages.book asked.pages.log) × (r.1 ≡ length self.new.seen)) }
        ensures busy { result ≡ Err refusal.Busy → self.new ≡ self.old }
    {
        let VersionAnswer {
            pages,
            count,
            decision,
        } = asked;
        if count < self.count {
            return Err(SeatError::Busy);
        }
        compare(&self.pages, &pages);
        self.pages = pages;
        self.count = count;
        match decision {
            Ok(decision) => Ok((decision, count)),
            Err(_refused) => Err(SeatError::Memory),
        }
    }

    /// Of the lists that this seat and another have seen one begins the other.
    pub(crate) fn histories_agree(&self, other: &Seat)
        requires { self.now.desk ≡ other.now.desk }
        ensures { Agree self.now other.now }
    {
        if self.count <= other.count {
            compare(&self.pages, &other.pages);
        } else {
            compare(&other.pages, &self.pages);
        }
    }

    /// The steps that this seat has seen and the reported ones: one list is a prefix of the other.
    fn reports_agree(&self, told: &Told)
        requires { told.now.desk ≡ self.now.desk }
        ensures { Agree self.now told.now }
    {
        if self.count <= told.count {
            compare(&self.pages, &told.pages);
        } else {
            compare(&told.pages, &self.pages);
        }
    }
}
