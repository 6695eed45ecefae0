ghost use Rattle.std.specs.Prelude.{◌≡◌};

use std::marker::Model;

/// A word of a selector's text, borrowed from it; contracts see its bytes.
#[derive(Drop)]
pub struct Word<'a> {
    text: &'a str,
}

impl<'a> Model for Word<'a> {
    ghost use Rattle.std.specs.Prelude.{List, ℕ};

    ghost Value = { List ℕ };

    ghost view = { λ w. w.text.now };
}

impl<'a> Word<'a> {
    pub fn new(text: &'a str) -> Word<'a>
        ensures { result ≡ text.entry.now }
    {
        Word { text }
    }

    pub fn as_str(&self) -> &'a str
        ensures { result.now ≡ self.now }
    {
        self.text
    }
}

/// A token of a selector's text.
#[derive(Drop)]
pub enum Token<'a> {
    /// A run of bytes that are none of the signs below and no space.
    Word(Word<'a>),
    /// `=` or `==`, which are the same.
    Equals,
    /// `!=`
    NotEquals,
    /// `!`
    Not,
    /// `(`
    Open,
    /// `)`
    Close,
    /// `,`
    Comma,
}

impl<'a> Token<'a> {
    ghost use Rattle.std.specs.Option.{option_copied};
    ghost use Rattle.kapi_model.specs.SelectorText.{word_of};

    /// The word that the token is, if it is one.
    pub fn word(&self) -> Option<&'a str>
        ensures { option_copied result ≡ word_of self.now }
    {
        match self {
            Token::Word(word) => Some(word.as_str()),
            _ => None,
        }
    }
}
