//! The event that a line of a script is, or why it is none.
ghost use Rattle.std.specs.Prelude.{◌≡◌, ◌==◌, ◌<◌, false, length, None, Some, IfErr, IfOk, IfSome};
ghost use Rattle.std.specs.List.{position};
ghost use Rattle.std.specs.Option.{is_some};
ghost use Rattle.kapi_script.specs.Events.{connection as connection_of, feed_at as feed_at_of, feed_event, line_event, open_event};
ghost use Rattle.kapi_script.specs.Private.Playing.{wants_memory};

use kapi_core::{ConnId, Event};
use kapi_lines::{as_text, is_escaped, read_identity, unescape};
use kapi_text::{Memory, Sequence, are_digits, number};
use std::alloc::Global;

/// Why a line makes no event.
#[derive(Clone, Copy)]
pub enum LineError {
    /// It is none, for this reason.
    NoEvent(&'static str),
    Memory,
}

impl From<Memory> for LineError {
    ghost use Rattle.std.specs.Prelude.{◌≡◌};
    ghost use Rattle.kapi_script.specs.declared.line.LineError.TheVariants.{Memory as NoMemory};

    ghost from_gives = { λ _ e. e ≡ NoMemory };

    fn from(_error: Memory) -> LineError {
        LineError::Memory
    }
}

/// The event of a script's line; why the line has no known form is told before anything is allocated.
#[tactic(auto, unfolding(crate::specs::Events::line_event))]
pub fn parse_line(alloc: Global, line: &[u8]) -> Result<Event, LineError>
    ensures event { IfOk result (λ e. line_event line.now ≡ Some e) }
    ensures none { IfErr result (λ e. is_some (line_event line.now) ≡ wants_memory e) }
{
    if line.starts_with(b"open ") {
        return parse_open(alloc, &line[5..]);
    }
    if line.starts_with(b"feed ") {
        return parse_feed(alloc, &line[5..]);
    }
    if line.starts_with(b"serve ") {
        return connection(&line[6..]).map(Event::Serve);
    }
    if line.starts_with(b"pump ") {
        return connection(&line[5..]).map(Event::Pump);
    }
    if line.starts_with(b"close ") {
        return connection(&line[6..]).map(Event::Close);
    }
    if line == b"turn".as_slice() {
        return Ok(Event::Turn);
    }
    Err(LineError::NoEvent(word_reason(line)))
}

/// Why a line that ends with CR is none.
const CARRIAGE_RETURN: &str = "the line ends with CR LF; a line of a script ends with LF alone";

const FEED: &str = "too few words: feed N TEXT is wanted";

/// Why a line that begins with no word of an event and a space is none.
fn word_reason(line: &[u8]) -> &'static str {
    if line.ends_with(b"\r") {
        return CARRIAGE_RETURN;
    }
    match line {
        b"open" => "too few words: open USER or open USER,GROUP,.. is wanted",
        b"feed" => FEED,
        b"serve" | b"pump" | b"close" => {
            "too few words: the number of a connection is wanted, as in serve 0"
        }
        _ => {
            "no event: open USER[,GROUP..], feed N TEXT, serve N, pump N, turn or close N, one space between words; try 'kapi script --help'"
        }
    }
}

#[tactic(auto, unfolding(crate::specs::Events::open_event))]
fn parse_open(alloc: Global, names: &[u8]) -> Result<Event, LineError>
    ensures event { IfOk result (λ e. open_event names.now ≡ Some e) }
    ensures none { IfErr result (λ e. is_some (open_event names.now) ≡ wants_memory e) }
{
    match read_identity(alloc, names)? {
        Some(identity) => Ok(Event::Open(identity)),
        None if as_text(names).is_some() => Err(LineError::NoEvent(
            "a name is empty: USER or USER,GROUP,.. is wanted",
        )),
        None => Err(LineError::NoEvent("a name is no UTF-8")),
    }
}

/// The event of `N TEXT`, parted at the first space.
#[tactic(auto, unfolding(crate::specs::Events::feed_event))]
fn parse_feed(alloc: Global, rest: &[u8]) -> Result<Event, LineError>
    ensures event { IfOk result (λ e. feed_event rest.now ≡ Some e) }
    ensures none { IfErr result (λ e. is_some (feed_event rest.now) ≡ wants_memory e) }
{
    match space_at(rest) {
        Some(at) => feed_at(alloc, rest, at),
        None => Err(LineError::NoEvent(FEED)),
    }
}

fn space_at(rest: &[u8]) -> Option<usize>
    ensures found { result ≡ position (λ b. b == 32) rest.now }
    ensures within { IfSome result (λ at. at < length rest.now) }
{
    rest.iter().position(|byte| *byte == b' ')
}

fn feed_at(alloc: Global, rest: &[u8], at: usize) -> Result<Event, LineError>
    requires { at < length rest.now }
    ensures event { IfOk result (λ e. feed_at_of rest.now (Some at) ≡ Some e) }
    ensures none { IfErr result (λ e. is_some (feed_at_of rest.now (Some at)) ≡ wants_memory e) }
{
    let (number, text) = rest.split_at(at);
    let (_, text) = text.split_at(1);
    let conn = match connection(number) {
        Ok(conn) => conn,
        Err(error) => return Err(error),
    };
    if !is_escaped(text) {
        return Err(LineError::NoEvent(NO_ESCAPE));
    }
    match unescape(alloc, text)? {
        Some(bytes) => Ok(Event::Feed(conn, Sequence::new(bytes))),
        None => Err(LineError::NoEvent(NO_ESCAPE)),
    }
}

const NO_ESCAPE: &str =
    "a backslash in the text begins no escape; those are \\\\, \\n, \\r, \\t and \\x with two hexadecimal digits";

/// The largest number of digits of a connection's number.
const NUMBER_DIGITS: usize = 18;

/// The number of a connection: 1 to 18 decimal digits.
#[tactic(auto, unfolding(crate::specs::Events::connection))]
fn connection(digits: &[u8]) -> Result<ConnId, LineError>
    ensures number { IfOk result (λ c. connection_of digits.now ≡ Some c) }
    ensures none { IfErr result (λ e. (connection_of digits.now ≡ None) × (wants_memory e ≡ false)) }
{
    if digits.is_empty() || digits.len() > NUMBER_DIGITS || !are_digits(digits) {
        return Err(LineError::NoEvent(number_reason(digits)));
    }
    Ok(ConnId(number(digits)))
}

/// What is wrong with digits that are not the number of a connection.
fn number_reason(digits: &[u8]) -> &'static str {
    if digits.ends_with(b"\r") {
        return CARRIAGE_RETURN;
    }
    if digits.contains(&b' ') {
        return "too many words or spaces: one number stands behind one space";
    }
    "the connection is no number of 1 to 18 digits; 'open' answers the number"
}
