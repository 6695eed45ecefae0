//! How the entries of a rule match (Kubernetes, 'Using RBAC Authorization').
ghost use Rattle.std.specs.Prelude.{◌≡◌, ◌∷◌, ◌++◌, [], MatchOption};
ghost use Rattle.std.specs.List.{list_any};
ghost use Rattle.std.specs.Str.{bytes_eq};
ghost use Rattle.kapi_rules.specs.Entries.{beginning_matches as beginning_entry_matches, names_match, resource_matches as resource_entry_matches, subresource_matches as subresource_entry_matches, url_matches as url_entry_matches, without_stars as without_last_stars, word_matches as word_entry_matches};

use kapi_text::Text;

/// Whether an entry that lists verbs or groups matches: `*`, or the very word.
pub fn word_matches(entry: &str, word: &str) -> bool
    ensures { result ≡ word_entry_matches entry.now word.now }
{
    entry == "*" || entry == word
}

/// Whether some entry that lists verbs or groups matches.
pub fn some_word_matches(entries: &[Text], word: &str) -> bool
    ensures { result ≡ list_any (λ e. word_entry_matches e word.now) entries.now }
{
    entries
        .iter()
        .any(|entry| word_matches(entry.as_str(), word))
}

/// Whether an entry that lists resources matches, such as `pods`, `pods/log`, `*/log` and `*`. An absent subresource is
/// empty.
pub fn resource_matches(entry: &str, resource: &str, subresource: &str) -> bool
    ensures { result ≡ resource_entry_matches entry.now resource.now subresource.now }
{
    if subresource.is_empty() {
        word_matches(entry, resource)
    } else {
        subresource_matches(entry, resource, subresource)
    }
}

// Whether an entry matches a subresource: `*`, `RESOURCE/SUBRESOURCE` or `*/SUBRESOURCE`.
fn subresource_matches(entry: &str, resource: &str, subresource: &str) -> bool
    ensures { result ≡ subresource_entry_matches entry.now resource.now subresource.now }
{
    let (bytes, last) = (entry.as_bytes(), subresource.as_bytes());
    (entry == "*" || is_joined(bytes, resource.as_bytes(), last)) || is_joined(bytes, b"*", last)
}

// Whether the text is `FIRST/LAST`.
#[tactic(auto, using(crate::proofs::Texts::bytes_eq_append))]
fn is_joined(text: &[u8], first: &[u8], last: &[u8]) -> bool
    ensures { result ≡ bytes_eq text.now (first.now ++ 47 ∷ last.now) }
{
    if !text.starts_with(first) {
        return false;
    }
    let (_, rest) = text.split_at(first.len());
    is_slash_and(rest, last)
}

fn is_slash_and(text: &[u8], last: &[u8]) -> bool
    ensures { result ≡ bytes_eq text.now (47 ∷ last.now) }
{
    match text {
        [b'/', tail @ ..] => tail == last,
        _ => false,
    }
}

/// Whether some entry that lists resources matches.
pub fn some_resource_matches(entries: &[Text], resource: &str, subresource: &str) -> bool
    ensures { result ≡ list_any (λ e. resource_entry_matches e resource.now subresource.now) entries.now }
{
    entries.iter().any(|entry| resource_matches(entry.as_str(), resource, subresource))
}

/// Whether a list of names matches: the names in it, and the empty list all names.
pub fn is_name_matched(names: &[Text], name: &str) -> bool
    ensures { result ≡ names_match names.now name.now }
{
    names.is_empty() || is_listed(names, name)
}

/// Whether the name is in the list.
pub fn is_listed(names: &[Text], name: &str) -> bool
    ensures { result ≡ list_any (λ n. bytes_eq n name.now) names.now }
{
    names.iter().any(|listed| listed.as_str() == name)
}

/// Whether an entry that lists URLs matches: the very path, or a beginning of it and a star, as `/healthz*`.
pub fn url_matches(entry: &str, path: &str) -> bool
    ensures { result ≡ url_entry_matches entry.now path.now }
{
    entry == path || beginning_matches(entry.as_bytes(), path.as_bytes())
}

// Whether the entry ends in a star, and the path begins with the text before its last stars.
fn beginning_matches(entry: &[u8], path: &[u8]) -> bool
    ensures { result ≡ beginning_entry_matches entry.now path.now }
{
    entry.ends_with(b"*") && path.starts_with(without_stars(entry))
}

/// The text without the stars at its end.
#[tactic(auto, using(crate::proofs::Texts::without_stars_append))]
pub fn without_stars(text: &[u8]) -> &[u8]
    ensures { result.now ≡ without_last_stars text.now }
{
    let mut front = text;
    while let Some(shorter) = before_last_star(front) {
        front = shorter;
    }
    front
}

// The text before the last byte if that is a star; without it the text has no stars at its end.
#[tactic(auto, using(crate::proofs::Texts::without_stars_kept))]
fn before_last_star(text: &[u8]) -> Option<&[u8]>
    ensures { MatchOption result (without_last_stars text.now ≡ text.now) (λ front. text.now ≡ front.now ++ 42 ∷ []) }
{
    match text.split_last() {
        Some((last, front)) => { if *last == b'*' { Some(front) } else { None } }
        None => None,
    }
}

/// Whether some entry that lists URLs matches.
pub fn some_url_matches(entries: &[Text], path: &str) -> bool
    ensures { result ≡ list_any (λ e. url_entry_matches e path.now) entries.now }
{
    entries
        .iter()
        .any(|entry| url_matches(entry.as_str(), path))
}
