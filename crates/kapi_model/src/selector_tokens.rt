//! The tokens of a selector's text.
ghost use Rattle.std.specs.Prelude.{◌≡◌, ◌==◌, ◌<◌, ◌∷◌, if◌then◌else◌, false, true, length, slice_index, IfOk};
ghost use Rattle.kapi_model.specs.SelectorText.{ends_word as ends_word_of, is_pair as is_pair_of, led_by, mark as mark_of, tokens as tokens_of};
ghost use Rattle.kapi_model.specs.declared.selector_token.Token.TheVariants as token;

use crate::selector_token::{Token, Word};
use kapi_text::Memory;
use std::alloc::Global;

/// The tokens of a text.
pub fn tokens(alloc: Global, text: &str) -> Result<Vec<Token<'_>>, Memory>
    ensures { IfOk result (λ v. v.items ≡ tokens_of text.now) }
{
    let mut tokens = Vec::new(alloc);
    let mut rest = text;
    while !rest.is_empty() {
        let (token, behind) = front(rest);
        if let Some(token) = token {
            tokens.push(token)?;
        }
        rest = behind;
    }
    Ok(tokens)
}

/// The token at the front of a text, unless the text begins with a space, and the rest.
fn front(text: &str) -> (Option<Token<'_>>, &str)
    requires { 0 < length text.now }
    ensures split { tokens_of text.now ≡ led_by result.0 (tokens_of result.1.now) }
    ensures shorter { length result.1.now < length text.now }
{
    if ends_word(text.as_bytes()[0]) {
        front_mark(text)
    } else {
        let (word, behind) = front_word(text);
        (Some(Token::Word(Word::new(word))), behind)
    }
}

fn front_mark(text: &str) -> (Option<Token<'_>>, &str)
    requires some { 0 < length text.now }
    requires no_word { ends_word_of (slice_index text.now 0) ≡ true }
    ensures split { tokens_of text.now ≡ led_by result.0 (tokens_of result.1.now) }
    ensures shorter { length result.1.now < length text.now }
{
    let first = text.as_bytes()[0];
    let before_equals = is_before_equals(text.as_bytes());
    let (_mark, behind) = text.split_at(mark_length(first, before_equals));
    (mark(first, before_equals), behind)
}

fn front_word(text: &str) -> (&str, &str)
    requires some { 0 < length text.now }
    requires a_word { ends_word_of (slice_index text.now 0) ≡ false }
    ensures split { tokens_of text.now ≡ token.Word result.0.now ∷ tokens_of result.1.now }
    ensures shorter { length result.1.now < length text.now }
{
    match text.as_bytes().iter().position(|byte| ends_word(*byte)) {
        Some(end) => text.split_at(end),
        None => (text, ""),
    }
}

fn ends_word(byte: u8) -> bool
    ensures { result ≡ ends_word_of byte }
{
    byte == b' '
        || (byte == b'!' || (byte == b'(' || (byte == b')' || (byte == b',' || byte == b'='))))
}

fn is_before_equals(text: &[u8]) -> bool
    ensures { result ≡ (slice_index text.now 1 == 61) }
{
    text.len() > 1 && text[1] == b'='
}

fn is_pair(first: u8, before_equals: bool) -> bool
    ensures { result ≡ is_pair_of first before_equals }
{
    before_equals && (first == b'!' || first == b'=')
}

/// How many bytes a sign or a space has.
fn mark_length(first: u8, before_equals: bool) -> usize
    ensures { result ≡ (if is_pair_of first before_equals then 2 else 1) }
{
    if is_pair(first, before_equals) { 2 } else { 1 }
}

fn mark(first: u8, before_equals: bool) -> Option<Token<'static>>
    ensures { result ≡ mark_of first before_equals }
{
    match first {
        b' ' => None,
        b'!' if before_equals => Some(Token::NotEquals),
        b'!' => Some(Token::Not),
        b'(' => Some(Token::Open),
        b')' => Some(Token::Close),
        b',' => Some(Token::Comma),
        _equals => Some(Token::Equals),
    }
}
