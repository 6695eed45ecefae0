ghost use Rattle.std.specs.Prelude.{◌≡◌, ◌==◌, ◌<◌, IfSome, length, position};
ghost use Rattle.std.specs.Option.{option_copied};
ghost use Rattle.std.specs.List.{list_all, before_first};
ghost use Rattle.kapi_answer.specs.Headers as fields;
ghost use Rattle.kapi_answer.specs.Headers.{media_typed};

use kapi_http::{Header, Method, eq_ignore_ascii_case, trim_ows};
use kapi_reply::{Refusal, Refused};
use kapi_request_info::is_named;

/// Checks the body's encoding and media type (RFC 9110 sections 8.3 and 8.4): no coding but `identity`, and the type
/// that the method reads.
#[tactic(auto, unfolding(crate::specs::Headers::media_typed))]
pub fn check_media_type(method: Method, headers: &[Header]) -> Result<(), Refused>
    ensures { result ≡ media_typed method headers.now }
{
    if are_uncoded(headers) && is_typed(method, headers) {
        Ok(())
    } else {
        Err(Refused::asked_for(Refusal::UnsupportedMediaType))
    }
}

fn are_uncoded(headers: &[Header]) -> bool
    ensures { result ≡ list_all fields.is_uncoded headers.now }
{
    headers.iter().all(|header| is_uncoded(header))
}

fn is_uncoded(header: &Header) -> bool
    ensures { result ≡ fields.is_uncoded header.now }
{
    !is_named(header, b"content-encoding")
        || eq_ignore_ascii_case(header.value.as_slice(), b"identity")
}

/// Whether the body has the type that the method reads; for a read and a deletion the type is not checked.
#[tactic(auto, unfolding(crate::specs::Headers::is_typed))]
fn is_typed(method: Method, headers: &[Header]) -> bool
    ensures { result ≡ fields.is_typed method headers.now }
{
    match method {
        Method::Get | Method::Delete => true,
        Method::Post | Method::Put => is_json(headers),
        Method::Patch => is_merge_patch(headers),
    }
}

/// Whether the body is JSON, as its Content-Type says; a body without one is taken as JSON.
fn is_json(headers: &[Header]) -> bool
    ensures { result ≡ fields.is_json headers.now }
{
    match content_type(headers) {
        Some(header) => is_of_type(header, b"application/json"),
        None => true,
    }
}

/// Whether the body is a merge patch (RFC 7396); there are other patches, so its Content-Type must say so.
fn is_merge_patch(headers: &[Header]) -> bool
    ensures { result ≡ fields.is_merge_patch headers.now }
{
    match content_type(headers) {
        Some(header) => is_of_type(header, b"application/merge-patch+json"),
        None => false,
    }
}

/// The first Content-Type.
fn content_type(headers: &[Header]) -> Option<&Header>
    ensures { option_copied result ≡ fields.content_type headers.now }
{
    headers
        .iter()
        .find(|header| is_named(header, b"content-type"))
}

/// Whether the field is that media type, up to its parameters.
fn is_of_type(header: &Header, name: &[u8]) -> bool
    ensures { result ≡ fields.is_of_type name.now header.now }
{
    eq_ignore_ascii_case(media_type(header.value.as_slice()), name)
}

/// The text before the parameters, without the white space before the semicolon.
fn media_type(value: &[u8]) -> &[u8]
    ensures { result.now ≡ fields.media_type value.now }
{
    trim_ows(before_semicolon(value))
}

fn before_semicolon(value: &[u8]) -> &[u8]
    ensures { result.now ≡ before_first (λ b. b == 59) value.now }
{
    match semicolon_at(value) {
        Some(at) => {
            let (front, _) = value.split_at(at);
            front
        }
        None => value,
    }
}

/// The index of the first semicolon.
fn semicolon_at(value: &[u8]) -> Option<usize>
    ensures found { result ≡ position (λ b. b == 59) value.now }
    ensures within { IfSome result (λ at. at < length value.now) }
{
    value.iter().position(|byte| *byte == b';')
}
