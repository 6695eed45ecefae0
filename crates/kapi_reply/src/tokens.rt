//! JSON text, written token by token: the kit's writer quotes and escapes.
ghost use Rattle.std.specs.Prelude.{◌≡◌, [], ◌∷◌, ◌++◌, decimal, map as map_of, string_bytes, OnOk};
ghost use Rattle.json.specs.Print.{print, IsPrintable};
ghost use Rattle.json.specs.Reads.{token_of};
ghost use Rattle.json.specs.Token.{number};
ghost use Rattle.serde_json.specs.Data.{array, string};
ghost use Rattle.serde_json.specs.View.{items_of};
ghost use Rattle.kapi_reply.specs.Private.Tokens.{data_tokens, some_text_tokens, text_tokens};

use json::{Token, Writer};
use kapi_text::Memory;

/// Writes a token.
pub(crate) fn write_token(out: &mut Writer, token: Token<'_>) -> Result<(), Memory>
    requires { IsPrintable (token_of token) }
    ensures tokens { OnOk result (out.new.tokens ≡ out.old.tokens ++ token_of token.entry ∷ []) }
    ensures before { OnOk result (out.new.before ≡ out.old.before) }
{
    out.token(token)
}

/// Writes a number.
pub(crate) fn write_number(out: &mut Writer, value: u16) -> Result<(), Memory>
    ensures tokens { OnOk result (out.new.tokens ≡ out.old.tokens ++ number (decimal value) ∷ []) }
    ensures before { OnOk result (out.new.before ≡ out.old.before) }
{
    out.u64(u64::from(value))
}

/// Writes a member whose value is a text.
pub(crate) fn write_text(out: &mut Writer, key: &str, text: &str) -> Result<(), Memory>
    ensures tokens { OnOk result (out.new.tokens ≡ out.old.tokens ++ text_tokens key.now text.now) }
    ensures before { OnOk result (out.new.before ≡ out.old.before) }
{
    write_token(out, Token::Key(key))?;
    write_token(out, Token::String(text))
}

/// Writes a member whose value is a text, unless the text is empty.
#[tactic(auto, unfolding(crate::specs::Private::Tokens::some_text_tokens))]
pub(crate) fn write_some_text(out: &mut Writer, key: &str, text: &str) -> Result<(), Memory>
    ensures tokens { OnOk result (out.new.tokens ≡ out.old.tokens ++ some_text_tokens key.now text.now) }
    ensures before { OnOk result (out.new.before ≡ out.old.before) }
{
    if text.is_empty() {
        Ok(())
    } else {
        write_text(out, key, text)
    }
}

/// Writes a list of texts.
pub(crate) fn write_texts(out: &mut Writer, texts: &[&str]) -> Result<(), Memory>
    ensures tokens { OnOk result (out.new.tokens ≡ out.old.tokens ++ data_tokens (array (items_of (map_of (λ text. string text.now) texts.now)))) }
    ensures before { OnOk result (out.new.before ≡ out.old.before) }
{
    write_token(out, Token::BeginArray)?;
    for text in texts {
        write_token(out, Token::String(text))?;
    }
    write_token(out, Token::EndArray)
}

/// What was written, as a text of its own.
pub(crate) fn text_of(out: Writer) -> String
    requires { out.before ≡ [] }
    ensures { string_bytes result ≡ print out.tokens }
{
    match String::from_utf8(out.into_inner()) {
        Ok(text) => text,
        Err(_) => unreachable!(),
    }
}
