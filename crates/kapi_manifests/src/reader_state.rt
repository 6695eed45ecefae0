//! Where a reader of a file stands.
ghost use Rattle.std.specs.Prelude.{◌≡◌, ◌≤◌, ◌<◌, ◌+◌, ◌==◌, ◌^◌, if◌then◌else◌};
ghost use Rattle.kapi_manifests.specs.Places as places;
ghost use Rattle.kapi_manifests.specs.Places.{behind, closed as closed_of, depth_of};
ghost use Rattle.kapi_manifests.specs.declared.reader_state.ReaderState.TheVariants.{Between, Inside, Quoted, Escaped};

/// Where a reader of a file stands.
#[derive(Clone, Copy, PartialEq, Eq)]
pub enum ReaderState {
    /// Outside of all objects.
    Between,
    /// In a comment, which goes to the end of its line.
    Comment,
    /// In a line that begins no object.
    Stray,
    /// Inside so many braces.
    Inside(usize),
    /// In a string inside so many braces.
    Quoted(usize),
    /// Behind a backslash in such a string.
    Escaped(usize),
}

/// The place behind a byte.
#[tactic(auto, unfolding(crate::specs::Places::behind))]
pub fn next(place: ReaderState, byte: u8) -> ReaderState
    requires { depth_of place < 2 ^ 63 }
    ensures place { result ≡ behind place byte }
    ensures depth { depth_of result ≤ depth_of place + 1 }
{
    match place {
        ReaderState::Between => next_between(byte),
        ReaderState::Comment => next_in_line(ReaderState::Comment, byte),
        ReaderState::Stray => next_in_line(ReaderState::Stray, byte),
        ReaderState::Inside(depth) => next_inside(depth, byte),
        ReaderState::Quoted(depth) => next_quoted(depth, byte),
        ReaderState::Escaped(depth) => ReaderState::Quoted(depth),
    }
}

#[tactic(auto, unfolding(crate::specs::Places::behind))]
fn next_between(byte: u8) -> ReaderState
    ensures { result ≡ behind Between byte }
{
    match byte {
        b' ' | b'\t' | b'\r' | b'\n' => ReaderState::Between,
        b'#' => ReaderState::Comment,
        b'{' => ReaderState::Inside(1),
        _ => ReaderState::Stray,
    }
}

fn next_in_line(place: ReaderState, byte: u8) -> ReaderState
    ensures { result ≡ (if byte == 10 then Between else place) }
{
    if byte == b'\n' {
        ReaderState::Between
    } else {
        place
    }
}

#[tactic(auto, unfolding(crate::specs::Places::behind))]
fn next_inside(depth: usize, byte: u8) -> ReaderState
    requires { depth < 2 ^ 63 }
    ensures { result ≡ behind (Inside depth) byte }
{
    match byte {
        b'"' => ReaderState::Quoted(depth),
        b'{' => ReaderState::Inside(depth + 1),
        b'}' => closed(depth),
        _ => ReaderState::Inside(depth),
    }
}

/// The place behind a closing brace.
fn closed(depth: usize) -> ReaderState
    ensures { result ≡ closed_of depth }
{
    if depth <= 1 {
        ReaderState::Between
    } else {
        ReaderState::Inside(depth - 1)
    }
}

#[tactic(auto, unfolding(crate::specs::Places::behind))]
fn next_quoted(depth: usize, byte: u8) -> ReaderState
    ensures { result ≡ behind (Quoted depth) byte }
{
    match byte {
        b'"' => ReaderState::Inside(depth),
        b'\\' => ReaderState::Escaped(depth),
        _ => ReaderState::Quoted(depth),
    }
}

/// Whether a place is in a piece: in an object, or in a line that begins none.
pub fn is_piece(place: ReaderState) -> bool
    ensures { result ≡ places.is_piece place }
{
    match place {
        ReaderState::Between | ReaderState::Comment => false,
        _ => true,
    }
}
