//! The header fields of a head, by name.
ghost use Rattle.std.specs.Prelude.{◌≡◌, ◌==◌, ◌<◌, [], ◌∷◌, All, IfSome, IsNone, length, slice_get};
ghost use Rattle.std.specs.List.{list_any, position_from, slice_split};
ghost use Rattle.std.specs.Option.{option_copied};
ghost use Rattle.std.specs.Str.{str_eq_ignore_ascii_case};
ghost use Rattle.httparse.specs.Ascii.{comma};
ghost use Rattle.httparse.specs.Grammar.{is_ows, skip_ows, trim_ows};
ghost use Rattle.httparse.specs.Spans.{IsHeaderWithin};
ghost use Rattle.kapi_http.specs.Fields.{fields_at, lists as lists_word, values};

use httparse::spans::HeaderSpan;

/// How many fields have that name, in any case.
#[tactic(auto, unfolding(crate::specs::Fields::values))]
pub fn count_named(bytes: &[u8], headers: &[HeaderSpan], name: &[u8]) -> usize
    requires { All (IsHeaderWithin (length bytes.now)) headers.now }
    ensures { result ≡ length (values name.now (fields_at bytes.now headers.now)) }
{
    let mut count = 0;
    for header in headers {
        if eq_ignore_ascii_case(header.name.of(bytes), name) {
            count += 1;
        }
    }
    count
}

/// The value of the first field of that name, in any case.
#[tactic(auto, unfolding(crate::specs::Fields::values))]
pub fn first_named<'a>(bytes: &'a [u8], headers: &[HeaderSpan], name: &[u8]) -> Option<&'a [u8]>
    requires { All (IsHeaderWithin (length bytes.now)) headers.now }
    ensures { option_copied result ≡ slice_get (values name.now (fields_at bytes.now headers.now)) 0 }
{
    for header in headers {
        if eq_ignore_ascii_case(header.name.of(bytes), name) {
            return Some(header.value.of(bytes));
        }
    }
    None
}

/// Some field of that name lists the word, both in any case.
#[tactic(auto, unfolding(crate::specs::Fields::values))]
pub fn any_field_lists(bytes: &[u8], headers: &[HeaderSpan], name: &[u8], word: &[u8]) -> bool
    requires { All (IsHeaderWithin (length bytes.now)) headers.now }
    ensures { result ≡ list_any (lists_word word.now) (values name.now (fields_at bytes.now headers.now)) }
{
    for header in headers {
        if eq_ignore_ascii_case(header.name.of(bytes), name)
            && lists(header.value.of(bytes), word)
        {
            return true;
        }
    }
    false
}

/// Whether two texts are equal but for the case of their letters.
pub fn eq_ignore_ascii_case(one: &[u8], other: &[u8]) -> bool
    ensures { result ≡ str_eq_ignore_ascii_case one.now other.now }
{
    one.eq_ignore_ascii_case(other)
}

// The value is a list, with commas between its items, and one item is the word (RFC 9110 section 5.6.1).
#[tactic(auto, unfolding(crate::specs::Fields::lists))]
fn lists(value: &[u8], word: &[u8]) -> bool
    ensures { result ≡ lists_word word.now value.now }
{
    let mut rest = value;
    while let Some((item, after)) = split_at_comma(rest) {
        if eq_ignore_ascii_case(trim_ows(item), word) {
            return true;
        }
        rest = after;
    }
    eq_ignore_ascii_case(trim_ows(rest), word)
}

// The text before the first comma, and the text behind it.
#[tactic(auto, using(crate::proofs::Lists::split_found, crate::proofs::Lists::split_not_found))]
fn split_at_comma(value: &[u8]) -> Option<(&[u8], &[u8])>
    ensures none { IsNone result → slice_split (λ b. b == comma) value.now ≡ value.now ∷ [] }
    ensures split { IfSome result (λ x. slice_split (λ b. b == comma) value.now ≡ x.0.now ∷ slice_split (λ b. b == comma) x.1.now) }
    ensures shorter { IfSome result (λ x. length x.1.now < length value.now) }
{
    match comma_at(value) {
        Some(at) => {
            let (item, _) = value.split_at(at);
            let (_, after) = value.split_at(at + 1);
            Some((item, after))
        }
        None => None,
    }
}

// The index of the first comma.
fn comma_at(value: &[u8]) -> Option<usize>
    ensures found { result ≡ position_from (λ b. b == comma) 0 value.now }
    ensures within { IfSome result (λ at. at < length value.now) }
{
    value.iter().position(|b| *b == b',')
}

/// A value without the spaces and tabs at both ends (RFC 9110 section 5.6.3).
pub fn trim_ows(item: &[u8]) -> &[u8]
    ensures { result.now ≡ trim_ows item.now }
{
    let mut rest = without_leading(item);
    while let Some((last, front)) = rest.split_last() {
        if !is_white(*last) {
            return rest;
        }
        rest = front;
    }
    rest
}

fn without_leading(item: &[u8]) -> &[u8]
    ensures { result.now ≡ skip_ows item.now }
{
    let mut rest = item;
    while let Some((first, after)) = rest.split_first() {
        if !is_white(*first) {
            return rest;
        }
        rest = after;
    }
    rest
}

fn is_white(byte: u8) -> bool
    ensures { result ≡ is_ows byte }
{
    byte == b' ' || byte == b'\t'
}
