ghost use Rattle.std.specs.Prelude.{◌≡◌, IfOk, option_map};
ghost use Rattle.kapi_transcripts.specs.Sent.{body_of, sent_of};

use kapi_lines::unescape;
use kapi_text::Memory;
use std::alloc::Global;

/// The bytes that the line of an answer says were sent, if it says so.
pub fn sent(alloc: Global, line: &[u8]) -> Result<Option<Vec<u8>>, Memory>
    ensures { IfOk result (λ o. option_map (λ v. v.items) o ≡ sent_of line.now) }
{
    if line.starts_with(b"out ") {
        return unescape(alloc, &line[4..]);
    }
    if line.starts_with(b"last ") {
        return unescape(alloc, &line[5..]);
    }
    Ok(None)
}

/// The body of a reply: the text behind its first empty line.
pub fn body(reply: &[u8]) -> Option<&[u8]>
    ensures { option_map (λ s. s.now) result ≡ body_of reply.now }
{
    let mut rest = reply;
    while let [_first, tail @ ..] = rest {
        if rest.starts_with(b"\r\n\r\n") {
            return Some(rest.split_at(4).1);
        }
        rest = tail;
    }
    None
}
