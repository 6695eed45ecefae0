//! Words with marks.
ghost use Rattle.std.specs.Prelude.{◌≡◌, ◌==◌, ◌<◌, ◌++◌, ◌∷◌, ℕ};
ghost use Rattle.std.specs.Int.{bit_at};
ghost use Rattle.std.specs.List.{list_any};
ghost use Rattle.std.specs.Str.{bytes_eq};
ghost use Rattle.kapi_index.specs.Marks.{AreMarked, last_byte, mixed as mixed_of, place_of};

use kapi_text::{Sequence, Text, is_joined};
use std::marker::Model;

// The last byte of a text, or the given one if it is empty.
#[tactic(auto, using(crate::proofs::Places::last_appended))]
fn last_of(first: u8, text: &[u8]) -> u8
    ensures { result ≡ last_byte first text.now }
{
    match text.split_last() {
        Some((last, _front)) => *last,
        None => first,
    }
}

#[tactic(auto, unfolding(crate::specs::Marks::mixed))]
fn mixed(after: usize, first: u8, last: u8) -> usize
    ensures value { result ≡ mixed_of after first last }
    ensures below { result < 64 }
{
    (after % 64 + 3 * usize::from(first) + 5 * usize::from(last)) % 64
}

// Where a word is marked.
fn place(word: &[u8]) -> usize
    ensures value { result ≡ place_of word.now }
    ensures below { result < 64 }
{
    match word {
        [first, rest @ ..] => mixed(rest.len(), *first, last_of(*first, rest)),
        [] => 0,
    }
}

// Where `FIRST/LAST` is marked.
#[tactic(auto, using(crate::proofs::Places::last_joined, crate::proofs::Places::length_joined))]
fn joined_place(first: &[u8], last: &[u8]) -> usize
    ensures value { result ≡ place_of (first.now ++ 47 ∷ last.now) }
    ensures below { result < 64 }
{
    match first {
        [byte, rest @ ..] => { mixed(rest.len() + 1 + last.len(), *byte, last_of(b'/', last)) }
        [] => mixed(last.len(), b'/', last_of(b'/', last)),
    }
}

/// A word that is looked for.
#[derive(Drop)]
pub struct MarkedWord<'a> {
    text: &'a str,
    place: usize,
}

impl<'a> Model for MarkedWord<'a> {
    ghost use Rattle.std.specs.Prelude.{◌≡◌, ◌<◌, ℕ, List};
    ghost use Rattle.kapi_index.specs.Marks.{place_of};

    ghost Value = { List ℕ };

    ghost view = { λ w. w.text.now };

    ghost invariant = { λ w. (w.place ≡ place_of w.text.now) × (w.place < 64) };
}

impl<'a> MarkedWord<'a> {
    ghost use Rattle.std.specs.Prelude.{◌≡◌};

    /// The word of a text.
    pub fn of(text: &'a str) -> MarkedWord<'a>
        ensures { result ≡ text.now }
    {
        MarkedWord {
            text,
            place: place(text.as_bytes()),
        }
    }
}

/// A word that is looked for, as `FIRST/LAST`.
#[derive(Drop)]
pub struct Joined<'a> {
    first: &'a str,
    last: &'a str,
    place: usize,
}

impl<'a> Model for Joined<'a> {
    ghost use Rattle.std.specs.Prelude.{◌≡◌, ◌<◌, ℕ, List, ◌++◌, ◌∷◌};
    ghost use Rattle.kapi_index.specs.Marks.{place_of};

    ghost Value = { List ℕ };

    ghost view = { λ j. j.first.now ++ 47 ∷ j.last.now };

    ghost invariant = { λ j. (j.place ≡ place_of (j.first.now ++ 47 ∷ j.last.now)) × (j.place < 64) };
}

impl<'a> Joined<'a> {
    ghost use Rattle.std.specs.Prelude.{◌≡◌, ◌++◌, ◌∷◌};

    /// The word of two texts and a slash between them.
    pub fn of(first: &'a str, last: &'a str) -> Joined<'a>
        ensures { result ≡ first.now ++ 47 ∷ last.now }
    {
        Joined {
            first,
            last,
            place: joined_place(first.as_bytes(), last.as_bytes()),
        }
    }
}

// The marks with one more.
#[tactic(auto, using(crate::proofs::Places::bits_kept, crate::proofs::Places::bit_set))]
fn with_mark(marks: u64, place: usize) -> u64
    requires { place < 64 }
    ensures set { bit_at result place ≡ 1 }
    ensures kept { (i : ℕ) → bit_at marks i ≡ 1 → bit_at result i ≡ 1 }
{
    marks | (1 << place)
}

// The marks of the words.
fn marks_of(words: &[Text]) -> u64
    ensures { AreMarked result words.now }
{
    let mut marks = 0;
    for word in words {
        marks = with_mark(marks, place(word.as_str().as_bytes()));
    }
    marks
}

// Whether there is a mark at a place.
#[tactic(auto, using(crate::proofs::Places::bit_test))]
fn is_marked(marks: u64, place: usize) -> bool
    requires { place < 64 }
    ensures { result ≡ (bit_at marks place == 1) }
{
    (marks >> place) & 1 == 1
}

// Whether the word is one of the words.
fn is_listed(words: &[Text], word: &str) -> bool
    ensures { result ≡ list_any (λ x. bytes_eq x word.now) words.now }
{
    words.iter().any(|listed| listed.as_str() == word)
}

// The lengths are compared first, since they differ most often.
#[tactic(auto, using(crate::proofs::Places::other_length))]
fn is_joined_of(word: &Text, first: &str, last: &str) -> bool
    ensures { result ≡ bytes_eq word.now (first.now ++ 47 ∷ last.now) }
{
    let bytes = word.as_str().as_bytes();
    if bytes.len() != first.len() + 1 + last.len() {
        return false;
    }
    is_joined(bytes, first.as_bytes(), b'/', last.as_bytes())
}

// Whether `FIRST/LAST` is one of the words.
fn is_joined_listed(words: &[Text], first: &str, last: &str) -> bool
    ensures { result ≡ list_any (λ x. bytes_eq x (first.now ++ 47 ∷ last.now)) words.now }
{
    words.iter().any(|listed| is_joined_of(listed, first, last))
}

/// Words, and a mark at the place of each.
#[derive(Drop)]
pub struct Marked {
    marks: u64,
    words: Sequence<Text>,
}

impl Model for Marked {
    ghost use Rattle.std.specs.Prelude.{ℕ, List};
    ghost use Rattle.kapi_index.specs.Marks.{AreMarked};

    ghost Value = { List (List ℕ) };

    ghost view = { λ m. m.words };

    ghost invariant = { λ m. AreMarked m.marks m.words };
}

impl Marked {
    ghost use Rattle.std.specs.Prelude.{◌≡◌};
    ghost use Rattle.std.specs.List.{list_any};
    ghost use Rattle.std.specs.Str.{bytes_eq};

    /// Marks the words; allocates nothing.
    pub fn new(words: Sequence<Text>) -> Marked
        ensures { result ≡ words }
    {
        let marks = marks_of(words.as_slice());
        Marked { marks, words }
    }

    /// Whether the word is one of the marked words.
    pub fn has(&self, word: &MarkedWord<'_>) -> bool
        ensures { result ≡ list_any (λ x. bytes_eq x word.now) self.now }
    {
        is_marked(self.marks, word.place) && is_listed(self.words.as_slice(), word.text)
    }

    /// Whether the word in two pieces is one of the marked words.
    pub fn has_joined(&self, word: &Joined<'_>) -> bool
        ensures { result ≡ list_any (λ x. bytes_eq x word.now) self.now }
    {
        is_marked(self.marks, word.place)
            && is_joined_listed(self.words.as_slice(), word.first, word.last)
    }
}
