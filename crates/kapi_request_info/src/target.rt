//! The forms of a target, and its two parts (RFC 9112 section 3.2).
ghost use Rattle.std.specs.Prelude.{◌≡◌, ◌==◌, ◌||◌};
ghost use Rattle.std.specs.List.{list_all, before_first, after_first};
ghost use Rattle.std.specs.Option.{option_copied};
ghost use Rattle.kapi_text.specs.ResultIs.{ResultIs};
ghost use Rattle.kapi_request_info.specs.Faults.{fault_of};
ghost use Rattle.kapi_request_info.specs.Target.{is_target_byte as is_target_byte_of, path_on as path_on_of, behind_authority as behind_authority_of, path_or_root as path_or_root_of, split_target as split_target_of};

use crate::attributes::InfoError;

/// The path of a target and its query, which is empty if there is none.
#[tactic(auto, unfolding(crate::specs::Target::split_target))]
pub fn split_target(target: &[u8]) -> Result<(&[u8], &[u8]), InfoError>
    ensures { ResultIs fault_of (λ p. (p.0.now, p.1.now)) result (split_target_of target.now) }
{
    if !has_target_bytes(target) {
        return Err(InfoError::BadPath);
    }
    match path_on(target) {
        Some(text) => {
            let (path, query) = split_query(text);
            Ok((path_or_root(path), query))
        }
        None => Err(InfoError::BadPath),
    }
}

fn has_target_bytes(target: &[u8]) -> bool
    ensures { result ≡ list_all is_target_byte_of target.now }
{
    target.iter().all(|byte| is_target_byte(*byte))
}

/// Whether a byte may be in a target: visible ASCII but `#` (RFC 9112 section 3.2; RFC 3986 sections 2 and 3.5).
fn is_target_byte(byte: u8) -> bool
    ensures { result ≡ is_target_byte_of byte }
{
    byte >= 0x21 && (byte <= 0x7e && byte != b'#')
}

/// A target from its path on: itself, or the text behind the authority of an absolute one.
#[tactic(auto, unfolding(crate::specs::Target::path_on))]
fn path_on(target: &[u8]) -> Option<&[u8]>
    ensures { option_copied result ≡ path_on_of target.now }
{
    if target.starts_with(b"/") {
        return Some(target);
    }
    if target.starts_with(b"http://") {
        let (_, rest) = target.split_at(b"http://".len());
        return Some(behind_authority(rest));
    }
    None
}

/// The text behind an authority, which ends before the first `/` or `?` (RFC 3986 section 3.2).
fn behind_authority(rest: &[u8]) -> &[u8]
    ensures { result.now ≡ behind_authority_of rest.now }
{
    match rest.iter().position(|byte| *byte == b'/' || *byte == b'?') {
        Some(at) => &rest[at..],
        None => &[],
    }
}

/// The text before the first `?`, and the query behind it, which is empty if there is none (RFC 3986 section 3.4).
#[tactic(auto, using(crate::proofs::Queries::before_no_query, crate::proofs::Queries::after_no_query))]
fn split_query(text: &[u8]) -> (&[u8], &[u8])
    ensures before { result.0.now ≡ before_first (λ b. b == 63) text.now }
    ensures after { result.1.now ≡ after_first (λ b. b == 63) text.now }
{
    // Most targets have none, and this look takes many bytes at once.
    if !text.contains(&b'?') {
        return (text, &[]);
    }
    match text.iter().position(|byte| *byte == b'?') {
        Some(at) => (&text[..at], &text[at + 1..]),
        None => (text, &[]),
    }
}

/// The path, or `/` if it is absent (RFC 9110 section 4.2.3).
fn path_or_root(path: &[u8]) -> &[u8]
    ensures { result.now ≡ path_or_root_of path.now }
{
    if path.is_empty() { b"/" } else { path }
}
