//! Where a head ends: its first empty line after the request line.
ghost use Rattle.std.specs.Prelude.{◌≡◌, ◌==◌, ◌+◌, ◌≤◌, ◌∷◌, false, length};
ghost use Rattle.std.specs.List.{position_or_len};
ghost use Rattle.kapi_http.specs.Scan.{is_ended, lines_ended, next_place, scanned};

/// The place of the next byte in a head.
#[derive(Clone, Copy, PartialEq, Eq)]
pub enum HeadState {
    /// At the start of a line, before the request line.
    Leading,
    /// Behind a CR at the start of a line, before the request line.
    LeadingCr,
    /// In a line that is not empty.
    Inside,
    /// At the start of a line after the request line.
    LineStart,
    /// Behind a CR at the start of a line after the request line.
    LineCr,
    /// Behind the empty line that ends the head.
    Ended,
}

/// How far a head was read.
#[derive(Clone, Copy, PartialEq, Eq)]
pub struct Scan {
    pub place: HeadState,
    /// How many bytes of the head were read.
    pub at: usize,
    /// How many lines that are not empty ended there, the request line among them.
    pub lines: usize,
}

/// The scan before any byte.
pub const BEGIN: Scan = Scan {
    place: HeadState::Leading,
    at: 0,
    lines: 0,
};

/// The head is whole.
pub fn has_ended(place: HeadState) -> bool
    ensures { result ≡ is_ended place }
{
    matches!(place, HeadState::Ended)
}

// The place behind `byte`; a line ends at LF, and a line of only CR is empty too (RFC 9112 section 2.2).
fn place_after(place: HeadState, byte: u8) -> HeadState
    ensures { result ≡ next_place place byte }
{
    match (place, byte) {
        (HeadState::Ended, _) => HeadState::Ended,
        (HeadState::Leading, b'\n') => HeadState::Leading,
        (HeadState::LeadingCr, b'\n') => HeadState::Leading,
        (HeadState::Inside, b'\n') => HeadState::LineStart,
        (HeadState::LineStart, b'\n') => HeadState::Ended,
        (HeadState::LineCr, b'\n') => HeadState::Ended,
        (HeadState::Leading, b'\r') => HeadState::LeadingCr,
        (HeadState::LineStart, b'\r') => HeadState::LineCr,
        _ => HeadState::Inside,
    }
}

// How many lines that are not empty end with `byte`.
fn lines_at(place: HeadState, byte: u8) -> usize
    ensures { result ≡ lines_ended place byte }
{
    match (place, byte) {
        (HeadState::Inside, b'\n') => 1,
        _ => 0,
    }
}

// How many bytes come before the next LF, or all if there is none.
fn line_rest(bytes: &[u8]) -> usize
    ensures exact { result ≡ position_or_len (λ b. b == 10) bytes.now }
    ensures within { result ≤ length bytes.now }
{
    match bytes.iter().position(|byte| *byte == b'\n') {
        Some(at) => at,
        None => bytes.len(),
    }
}

// The scan behind the rest of the line in which it stands, and the bytes that follow. No byte of a line but its LF
// changes the place.
#[tactic(auto, using(crate::proofs::Scanning::scanned_line))]
fn skip_line(scan: Scan, bytes: &[u8]) -> (Scan, &[u8])
    requires inside { scan.place ≡ HeadState.Inside }
    requires fits { scan.at + length bytes.now ≤ 16384 }
    ensures exact { scanned result.0 result.1.now ≡ scanned scan bytes.now }
    ensures lines { result.0.lines ≡ scan.lines }
    ensures later { scan.at ≤ result.0.at }
    ensures count { result.0.at + length result.1.now ≡ scan.at + length bytes.now }
{
    let skipped = line_rest(bytes);
    let (_, rest) = bytes.split_at(skipped);
    let scan = Scan {
        place: HeadState::Inside,
        at: scan.at + skipped,
        lines: scan.lines,
    };
    (scan, rest)
}

// The scan after `byte` and, if this leaves it inside a line, after the rest of that line. Returns the bytes behind
// these too.
#[tactic(auto, unfolding(crate::specs::Scan::scanned))]
fn scan_piece(scan: Scan, byte: u8, rest: &[u8]) -> (Scan, &[u8])
    requires going { is_ended scan.place ≡ false }
    requires bounded { scan.lines ≤ scan.at }
    requires fits { scan.at + 1 + length rest.now ≤ 16384 }
    ensures exact { scanned result.0 result.1.now ≡ scanned scan (byte ∷ rest.now) }
    ensures lines { result.0.lines ≤ result.0.at }
    ensures count { result.0.at + length result.1.now ≡ scan.at + 1 + length rest.now }
    ensures shorter { length result.1.now ≤ length rest.now }
{
    let next = Scan {
        place: place_after(scan.place, byte),
        at: scan.at + 1,
        lines: scan.lines + lines_at(scan.place, byte),
    };
    match next.place {
        HeadState::Inside => skip_line(next, rest),
        _ => (next, rest),
    }
}

/// Reads on from `scan` over the bytes that follow, up to the end of the head.
#[tactic(auto, using(crate::proofs::Scanning::scanned_ended), unfolding(crate::specs::Scan::scanned))]
pub fn scan_on(scan: Scan, bytes: &[u8]) -> Scan
    requires bounded { scan.lines ≤ scan.at }
    requires fits { scan.at + length bytes.now ≤ 16384 }
    ensures exact { result ≡ scanned scan bytes.now }
    ensures bound { result.at ≤ scan.at + length bytes.now }
    ensures lines { result.lines ≤ result.at }
{
    let mut state = scan;
    let mut unread = bytes;
    while let [byte, rest @ ..] = unread {
        if has_ended(state.place) {
            return state;
        }
        let (next, after) = scan_piece(state, *byte, rest);
        state = next;
        unread = after;
    }
    state
}
