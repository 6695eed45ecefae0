//! Entries of words, the star as a case of its own.
ghost use Rattle.std.specs.Prelude.{◌≡◌, IfOk};
ghost use Rattle.std.specs.List.{list_any};
ghost use Rattle.std.specs.Str.{bytes_eq};
ghost use Rattle.kapi_rules.specs.Entries.{star};
ghost use Rattle.kapi_index.specs.Compiled.{compiled_names, compiled_words};

use crate::marks::{Joined, Marked, MarkedWord};
use kapi_text::{Memory, Sequence, Text, TryCopy};
use std::alloc::Global;

/// The words that a list of entries matches.
#[derive(Drop)]
pub enum Words {
    All,
    Listed(Marked),
}

// Whether some entry is `*`.
fn has_star(entries: &[Text]) -> bool
    ensures { result ≡ list_any (λ e. bytes_eq e star) entries.now }
{
    entries.iter().any(|entry| entry.as_str() == "*")
}

/// The words that entries of verbs, groups or resources match.
pub fn compile_words(alloc: Global, entries: &Sequence<Text>) -> Result<Words, Memory>
    ensures { IfOk result (λ w. w ≡ compiled_words entries.now) }
{
    if has_star(entries.as_slice()) {
        return Ok(Words::All);
    }
    Ok(Words::Listed(Marked::new(entries.copy(alloc)?)))
}

/// The names that a list of names matches.
pub fn compile_names(alloc: Global, names: &Sequence<Text>) -> Result<Words, Memory>
    ensures { IfOk result (λ w. w ≡ compiled_names names.now) }
{
    if names.as_slice().is_empty() {
        return Ok(Words::All);
    }
    Ok(Words::Listed(Marked::new(names.copy(alloc)?)))
}

impl Words {
    ghost use Rattle.std.specs.Prelude.{◌≡◌};
    ghost use Rattle.kapi_index.specs.Compiled.{words_match};

    /// Whether the word is matched.
    pub fn has(&self, word: &MarkedWord<'_>) -> bool
        ensures { result ≡ words_match self.now word.now }
    {
        match self {
            Words::All => true,
            Words::Listed(words) => words.has(word),
        }
    }

    /// Whether the word in two pieces is matched.
    pub fn has_joined(&self, word: &Joined<'_>) -> bool
        ensures { result ≡ words_match self.now word.now }
    {
        match self {
            Words::All => true,
            Words::Listed(words) => words.has_joined(word),
        }
    }
}
