//! When an atom implies another.
ghost use Rattle.std.specs.Prelude.{◌≡◌, ◌∷◌};
ghost use Rattle.std.specs.Option.{option_copied};
ghost use Rattle.kapi_rules.specs.Atoms.{after_slash as behind_slash, implies as atom_implies, is_any_with, names_cover as names_cover_names, resource_covers as entry_covers};

use crate::atom::{Atom, Names, ResourceAtom, UrlAtom};
use crate::entries::{url_matches, word_matches};

/// Whether an atom implies another: both are of one sort, and each part of the first covers that of the second. The
/// resource `*/SUBRESOURCE` covers each resource with exactly that subresource behind its first slash.
pub fn implies(a: &Atom, b: &Atom) -> bool
    ensures { result ≡ atom_implies a.now b.now }
{
    match (a, b) {
        (Atom::Resource(a), Atom::Resource(b)) => resource_implies(a, b),
        (Atom::Url(a), Atom::Url(b)) => url_implies(a, b),
        _ => false,
    }
}

fn resource_implies(a: &ResourceAtom, b: &ResourceAtom) -> bool
    ensures { result ≡ atom_implies (Atom.Resource a.now) (Atom.Resource b.now) }
{
    word_matches(a.verb.as_str(), b.verb.as_str())
        && (word_matches(a.group.as_str(), b.group.as_str())
            && (resource_covers(a.resource.as_str(), b.resource.as_str())
                && names_cover(&a.names, &b.names)))
}

fn url_implies(a: &UrlAtom, b: &UrlAtom) -> bool
    ensures { result ≡ atom_implies (Atom.Url a.now) (Atom.Url b.now) }
{
    word_matches(a.verb.as_str(), b.verb.as_str()) && url_matches(a.url.as_str(), b.url.as_str())
}

/// Whether a resource entry covers another.
pub fn resource_covers(entry: &str, covered: &str) -> bool
    ensures { result ≡ entry_covers entry.now covered.now }
{
    word_matches(entry, covered) || is_any_with_rest(entry.as_bytes(), covered.as_bytes())
}

// Whether the entry is `*/` and the text behind the first slash of the other, which is sought only behind `*/`.
fn is_any_with_rest(entry: &[u8], covered: &[u8]) -> bool
    ensures { result ≡ is_any_with entry.now (behind_slash covered.now) }
{
    match entry {
        [b'*', b'/', subresource @ ..] => is_rest(subresource, covered),
        _ => false,
    }
}

fn is_rest(subresource: &[u8], covered: &[u8]) -> bool
    ensures { result ≡ is_any_with (42 ∷ 47 ∷ subresource.now) (behind_slash covered.now) }
{
    match after_slash(covered) {
        Some(rest) => subresource == rest,
        None => false,
    }
}

/// The text behind the first slash, if there is one.
pub fn after_slash(text: &[u8]) -> Option<&[u8]>
    ensures { option_copied result ≡ behind_slash text.now }
{
    let mut rest = text;
    while let [byte, after @ ..] = rest {
        if *byte == b'/' {
            return Some(after);
        }
        rest = after;
    }
    None
}

// Whether names cover others: all names cover every name, and a name itself alone.
fn names_cover(names: &Names, covered: &Names) -> bool
    ensures { result ≡ names_cover_names names.now covered.now }
{
    match (names, covered) {
        (Names::All, _) => true,
        (Names::One(_), Names::All) => false,
        (Names::One(name), Names::One(covered)) => name.as_str() == covered.as_str(),
    }
}
