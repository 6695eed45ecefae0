//! The book of a desk: the policy that the desk opened with, and the published steps, a page each. It only grows, and
//! whoever has seen its first pages has a token of that. Pages exist in proofs alone, and tokens take no memory. What
//! the book has in memory is the number of its steps.
ghost use Rattle.std.specs.Prelude.{◌≡◌, ◌+◌, ◌≤◌, [], ◌∷◌, ◌++◌, length, MatchBool};
ghost use mathlib.Core.List.{IsPrefix};
ghost use Rattle.kapi_publishing.specs.Pages.{opening_page, step_page};

use kapi_index::IndexedPolicy;
use kapi_policy::{PolicyChange, PolicyStep};
use logbook::{Gain, Offer, Opening, Plain, Play, Rule, Seen, Start, Word};
use std::marker::Model;
use std::snapshot::Snapshot;

/// What a page says: the first the policy that the desk opened with, each other one a step. No value of it is made.
pub struct Page {
    pub opening: IndexedPolicy,
    pub step: [PolicyChange; 0],
}

/// The rule of a book: its pages are counted.
pub struct Counts;

impl Rule<Page, ()> for Counts {
    ghost use Rattle.std.specs.Prelude.{[]};
    ghost use base.Fml.{ftrue};
    ghost use Rattle.kapi_publishing.specs.Private.Writing.{AreCounted};

    ghost holds = { λ cells pages. AreCounted cells pages };

    ghost first = { [] };

    ghost hinted = { λ n pages. Unit {0} };

    ghost shows = { λ pages. [] };

    ghost keeps = { λ names pages. ftrue };

    ghost moves = { λ ask before after answer. Unit {0} };
}

/// Who writes a page trades nothing.
struct Nothing;

impl Gain<Page, ()> for Nothing {
    ghost use base.Fml.{ftrue};

    ghost after = { λ names about answer. ftrue };
}

/// A book begins with the page of a policy.
struct Opens;

impl Opening<IndexedPolicy, Page> for Opens {
    ghost use Rattle.std.specs.Prelude.{[], ◌∷◌};
    ghost use Rattle.kapi_publishing.specs.Pages.{opening_page};

    ghost log = { λ n policy. opening_page policy ∷ [] };
}

/// A page is written behind all that were seen.
struct Writes;

impl Play<Page, ()> for Writes {
    ghost use Rattle.kapi_publishing.specs.Private.Writing.{Written};

    ghost then = { Written };
}

impl Plain<Snapshot<PolicyStep>, Page, ()> for Writes {
    ghost use Rattle.std.specs.Prelude.{None};
    ghost use Rattle.kapi_publishing.specs.Pages.{step_page};

    ghost ask = { λ step. step_page step.value };

    ghost state = { λ step. None };
}

/// The first pages of a book, as they were seen.
pub(crate) type Pages = Seen<Page, (), Counts>;

/// A book, as its desk has it. Contracts see which book it is, and all its pages.
#[derive(Drop)]
pub(crate) struct Book {
    head: Word<Page, (), Counts>,
    pages: Pages,
    steps: u64,
}

impl Model for Book {
    ghost use Rattle.std.specs.Prelude.{◌≡◌, ◌+◌, length};
    ghost use Rattle.kapi_publishing.specs.Pages.{Shelf};
    ghost use Rattle.kapi_publishing.specs.Private.Writing.{head_of};

    ghost Value = { Shelf };

    ghost view = { λ b. record { book = b.pages.book; pages = b.pages.log } };

    ghost invariant = { λ b. (b.head ≡ head_of b.pages.book) × (length b.pages.log ≡ b.steps + 1) };
}

impl Book {
    /// A book with this policy and no step.
    pub(crate) fn open(policy: &IndexedPolicy) -> Book
        ensures { result.pages ≡ opening_page policy.now ∷ [] }
    {
        let (pages, mut pens) = Pages::open_row::<IndexedPolicy, Opens>(policy, Start::alone(), 1);
        let mut pen = pens.take();
        Book {
            head: Word::tracked(0, &mut pen),
            pages,
            steps: 0,
        }
    }

    /// All pages so far.
    pub(crate) fn pages(&self) -> Pages
        ensures { (result.book ≡ self.now.book) × (result.log ≡ self.now.pages) }
    {
        self.pages.again()
    }

    /// Writes the page of a step, and returns whether it did. Nobody else writes in this book, so it does unless the
    /// steps are too many to be counted.
    pub(crate) fn write(&mut self, step: &Snapshot<PolicyStep>) -> bool
        ensures { MatchBool result ((self.new.book ≡ self.old.book) × (self.new.pages ≡ self.old.pages ++ step_page step.now.value ∷ [])) (self.new ≡ self.old) }
    {
        let steps = self.steps;
        if steps == u64::MAX {
            return false;
        }
        let mut pages = self.pages.again();
        let mut offer: Offer<Page, (), Counts, Nothing> = self
            .pages
            .plain::<Nothing, Snapshot<PolicyStep>, Writes>(step);
        let mut pen = self.pages.no_pen();
        let found = self
            .head
            .compare_exchange::<Writes, Nothing>(
                steps,
                steps + 1,
                &mut pages,
                &mut offer,
                &mut pen,
            );
        if found != steps {
            return false;
        }
        self.pages = pages;
        self.steps = steps + 1;
        true
    }
}

/// Any two prefixes of the log: the shorter is a prefix of the longer.
pub(crate) fn compare(fewer: &Pages, more: &Pages)
    requires book { fewer.now.book ≡ more.now.book }
    requires fewer { length fewer.now.log ≤ length more.now.log }
    ensures { IsPrefix fewer.now.log more.now.log }
{
    let mut both = fewer.again();
    both.learn(more);
}
