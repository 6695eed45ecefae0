//! The rule that the two copies and all readers keep: the copy that is shown is the policy of its pages, and these are
//! pages of the desk's book.
ghost use Rattle.logbook.specs.Pages.{Book, book_coded};

use crate::version::{Operation, Version};
use atomic_table::{Join, Split};
use crossbeam_utils::rule::{Outcome, Protocol};
use left_right::reader::Reader;
use left_right::writer::Writer;
use std::marker::Model;

/// What the desk or a seat knows: the book of the desk. No value of it is made.
pub struct View {
    pub knows: bool,
    pub ghost book: { Book } by { book_coded },
}

impl Model for View {
    ghost use base.Fml.{ftrue};

    ghost also_owns = { λ _. ftrue };
}

pub(crate) struct Law;

impl Protocol<Version, View> for Law {
    ghost use Rattle.kapi_publishing.specs.Private.Copies.{IsShown, newcomer};

    ghost holds = { IsShown };

    ghost first = { newcomer };
}

pub(crate) type PolicyReader = Reader<Version, View, Law>;

pub(crate) type PolicyWriter = Writer<Version, Operation, View, Law>;

/// A seat sees the copy that is shown.
pub(crate) struct Enters;

impl Outcome<Version, View> for Enters {
    ghost use Rattle.kapi_publishing.specs.Private.Copies.{Entered};

    ghost then = { Entered };
}

/// The desk notes its book.
pub(crate) struct Opens;

impl Outcome<Version, View> for Opens {
    ghost use Rattle.std.specs.Prelude.{◌≡◌};
    ghost use Rattle.kapi_publishing.specs.Private.Copies.{reader_of};

    ghost then = { λ v x y w. w ≡ reader_of y.pages.book };
}

/// The desk publishes the step that waits.
pub(crate) struct Publishes;

impl Outcome<Version, View> for Publishes {
    ghost use Rattle.std.specs.Prelude.{◌≡◌};

    ghost then = { λ v x y w. w ≡ v };
}

/// The desk hands its book to a new reader.
pub(crate) struct Reports;

impl Split<View> for Reports {
    ghost left = { λ v. v };

    ghost right = { λ v. v };
}

impl Join<View> for Reports {
    ghost use Rattle.kapi_publishing.specs.Private.Copies.{newcomer};

    ghost both = { λ v told. told };

    ghost spent = { newcomer };
}
