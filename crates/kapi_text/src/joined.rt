ghost use Rattle.std.specs.Prelude.{◌≡◌, ◌++◌, ◌∷◌};
ghost use Rattle.std.specs.Str.{bytes_eq};

/// Whether the text is the separator and the last text.
fn is_then(text: &[u8], separator: u8, last: &[u8]) -> bool
    ensures { result ≡ bytes_eq text.now (separator ∷ last.now) }
{
    match text {
        [first, tail @ ..] => *first == separator && tail == last,
        [] => false,
    }
}

/// Whether the text is the first one, the separator, and the last one. Allocates nothing.
#[tactic(auto, using(crate::proofs::Prefixes::bytes_eq_append))]
pub fn is_joined(text: &[u8], first: &[u8], separator: u8, last: &[u8]) -> bool
    ensures { result ≡ bytes_eq text.now (first.now ++ separator ∷ last.now) }
{
    if !text.starts_with(first) {
        return false;
    }
    let (_first, rest) = text.split_at(first.len());
    is_then(rest, separator, last)
}
