ghost use Rattle.std.specs.Prelude.{◌≡◌, ◌<◌, IfOk, OnOk, Some, None, option_map};
ghost use Rattle.std.specs.Char.{digit_char};
ghost use Rattle.std.specs.Io.KnownBytes.{Appends};
ghost use Rattle.std.specs.Option.{is_some};
ghost use Rattle.kapi_lines.specs.Escapes.{after_backslash as after_backslash_of, by_digits as by_digits_of, escaped, escaped_byte, read as read_of, unescaped};

use kapi_text::{Memory, hex_value};
use std::alloc::Global;
use std::io::{self, Write};

/// The place of a reader in a script's text.
#[derive(Clone, Copy, PartialEq, Eq)]
pub enum EscapeState {
    Plain,
    /// Behind a backslash.
    Escape,
    /// Behind `\x`.
    HighDigit,
    /// Behind `\x` and this byte.
    LowDigit(u8),
}

/// What a byte of a script's text does.
#[derive(Clone, Copy, PartialEq, Eq)]
pub enum Effect {
    /// The byte ends the text of this byte.
    Byte(u8),
    To(EscapeState),
    /// No text goes on with this byte.
    Bad,
}

#[tactic(auto, unfolding(crate::specs::Escapes::read))]
fn read(place: EscapeState, byte: u8) -> Effect
    ensures { result ≡ read_of place byte }
{
    match place {
        EscapeState::Plain => {
            if byte == b'\\' {
                Effect::To(EscapeState::Escape)
            } else {
                Effect::Byte(byte)
            }
        }
        EscapeState::Escape => after_backslash(byte),
        EscapeState::HighDigit => Effect::To(EscapeState::LowDigit(byte)),
        EscapeState::LowDigit(high) => by_digits(high, byte),
    }
}

#[tactic(auto, unfolding(crate::specs::Escapes::after_backslash))]
fn after_backslash(letter: u8) -> Effect
    ensures { result ≡ after_backslash_of letter }
{
    match letter {
        b'\\' => Effect::Byte(b'\\'),
        b'n' => Effect::Byte(b'\n'),
        b'r' => Effect::Byte(b'\r'),
        b't' => Effect::Byte(b'\t'),
        b'x' => Effect::To(EscapeState::HighDigit),
        _ => Effect::Bad,
    }
}

#[tactic(auto, unfolding(crate::specs::Escapes::by_digits))]
fn by_digits(high: u8, low: u8) -> Effect
    ensures { result ≡ by_digits_of high low }
{
    match (hex_value(high), hex_value(low)) {
        (Some(high), Some(low)) => Effect::Byte(high * 16 + low),
        _ => Effect::Bad,
    }
}

/// Whether the text writes bytes: each backslash begins an escape. Allocates nothing.
#[tactic(auto, unfolding(crate::specs::Escapes::unescaped_from))]
pub fn is_escaped(text: &[u8]) -> bool
    ensures { result ≡ is_some (unescaped text.now) }
{
    let mut place = EscapeState::Plain;
    for byte in text {
        match read(place, *byte) {
            Effect::Byte(_) => place = EscapeState::Plain,
            Effect::To(next) => place = next,
            Effect::Bad => return false,
        }
    }
    matches!(place, EscapeState::Plain)
}

/// The bytes that a text writes; none where a backslash begins no escape.
#[tactic(auto, unfolding(crate::specs::Escapes::unescaped_from))]
pub fn unescape(alloc: Global, text: &[u8]) -> Result<Option<Vec<u8>>, Memory>
    ensures { IfOk result (λ o. option_map (λ v. v.items) o ≡ unescaped text.now) }
{
    let mut bytes = Vec::new(alloc);
    let mut place = EscapeState::Plain;
    for byte in text {
        match read(place, *byte) {
            Effect::Byte(byte) => {
                bytes.push(byte)?;
                place = EscapeState::Plain;
            }
            Effect::To(next) => place = next,
            Effect::Bad => return Ok(None),
        }
    }
    match place {
        EscapeState::Plain => Ok(Some(bytes)),
        _ => Ok(None),
    }
}

/// Writes bytes as the text of a script. Allocates nothing.
pub fn write_escaped<W: Write>(writer: &mut W, bytes: &[u8]) -> io::Result<()>
    ensures { OnOk result (Appends (W.contents writer.old) (W.contents writer.new) (escaped bytes.now)) }
{
    for byte in bytes {
        write_escaped_byte(writer, *byte)?;
    }
    Ok(())
}

#[tactic(auto, unfolding(crate::specs::Escapes::escaped_byte))]
fn write_escaped_byte<W: Write>(writer: &mut W, byte: u8) -> io::Result<()>
    ensures { OnOk result (Appends (W.contents writer.old) (W.contents writer.new) (escaped_byte byte)) }
{
    match byte {
        b'\\' => writer.write_all(b"\\\\"),
        b'\n' => writer.write_all(b"\\n"),
        b'\r' => writer.write_all(b"\\r"),
        b'\t' => writer.write_all(b"\\t"),
        0x20..=0x7e => writer.write_all(&[byte]),
        _ => writer.write_all(&[b'\\', b'x', hex_digit(byte / 16), hex_digit(byte % 16)]),
    }
}

/// The lower case hexadecimal digit of a number below 16.
fn hex_digit(number: u8) -> u8
    requires { number < 16 }
    ensures { result ≡ digit_char number }
{
    if number < 10 {
        b'0' + number
    } else {
        b'a' + (number - 10)
    }
}
