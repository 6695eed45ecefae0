//! The version in an object's text: texts that differ in one number alone, and the text around its one version.

ghost use Rattle.std.specs.Prelude.{◌≡◌, ◌++◌, ℕ, List, None, IfOk, IfSome, string_bytes};
ghost use Rattle.kapi_store.specs.Private.Cut.{HasOther, is_digit as is_digit_of, is_near as is_near_to, past_digits as past_digits_of, version_text as version_text_of};

use kapi_text::{Memory, Text};
use std::alloc::Global;

/// The version of a revision, as it stands in the metadata of an object's text.
pub fn version_text(alloc: Global, revision: u64) -> Result<String, Memory>
    ensures { IfOk result (λ s. string_bytes s ≡ version_text_of revision) }
{
    format!(in alloc; "\"resourceVersion\":\"{revision}\"")
}

/// What stands before and behind a part of a text, if the part stands there once.
pub fn around<'a>(text: &'a str, part: &str) -> Option<(&'a str, &'a str)>
    ensures found { IfSome result (λ r. text.now ≡ r.0.now ++ (part.now ++ r.1.now)) }
    ensures once { IfSome result (λ r. (a b : List ℕ) → text.now ≡ a ++ (part.now ++ b) → (r.0.now ≡ a) × (r.1.now ≡ b)) }
    ensures none { result ≡ None → (a b : List ℕ) → text.now ≡ a ++ (part.now ++ b) → HasOther text.now part.now a }
{
    let (before, behind) = text.split_once(part)?;
    let last = text.rfind(part)?;
    if last == before.len() {
        Some((before, behind))
    } else {
        None
    }
}

/// Three texts as one.
pub fn joined(alloc: Global, before: &str, part: &str, behind: &str) -> Result<Text, Memory>
    ensures { IfOk result (λ t. t ≡ before.now ++ (part.now ++ behind.now)) }
{
    let length = before
        .len()
        .saturating_add(part.len())
        .saturating_add(behind.len());
    let mut text = String::with_capacity(alloc, length)?;
    text.push_str(before)?;
    text.push_str(part)?;
    text.push_str(behind)?;
    Ok(Text::new(text))
}

fn is_digit(byte: u8) -> bool
    ensures { result ≡ is_digit_of byte }
{
    b'0' <= byte && byte <= b'9'
}

/// A text without the digits that it begins with.
fn past_digits(text: &[u8]) -> &[u8]
    ensures { result.now ≡ past_digits_of text.now }
{
    let mut rest = text;
    while let [byte, behind @ ..] = rest {
        if !is_digit(*byte) {
            return rest;
        }
        rest = behind;
    }
    rest
}

/// Whether two texts are the same but for the digits at the place where they first differ. Allocates nothing.
pub fn is_near(a: &[u8], b: &[u8]) -> bool
    ensures { result ≡ is_near_to a.now b.now }
{
    let mut left = a;
    let mut right = b;
    while let [x, xs @ ..] = left {
        let [y, ys @ ..] = right else {
            return past_digits(left).is_empty();
        };
        if *x != *y {
            return past_digits(left) == past_digits(right);
        }
        left = xs;
        right = ys;
    }
    past_digits(right).is_empty()
}
