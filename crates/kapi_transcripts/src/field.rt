//! Header fields below a request.
ghost use Rattle.std.specs.Prelude.{◌≡◌, ◌<◌, ◌==◌, IfSome, length};
ghost use Rattle.std.specs.List.{position};
ghost use Rattle.kapi_transcripts.specs.Fields as fields;
ghost use Rattle.kapi_transcripts.specs.Fields.{is_field as is_field_of};

/// Whether the line is a header field: a name of letters, digits, `-` and `_`, and a colon.
pub fn is_field(line: &[u8]) -> bool
    ensures { result ≡ is_field_of line.now }
{
    match place_of(line, b':') {
        Some(at) => is_name(line.split_at(at).0),
        None => false,
    }
}

/// The index of the first such byte.
pub fn place_of(bytes: &[u8], wanted: u8) -> Option<usize>
    ensures found { result ≡ position (λ b. b == wanted) bytes.now }
    ensures within { IfSome result (λ at. at < length bytes.now) }
{
    bytes.iter().position(|byte| *byte == wanted)
}

fn is_name(bytes: &[u8]) -> bool
    ensures { result ≡ fields.is_name bytes.now }
{
    !bytes.is_empty() && are_name_bytes(bytes)
}

fn are_name_bytes(bytes: &[u8]) -> bool
    ensures { result ≡ fields.are_name_bytes bytes.now }
{
    bytes.iter().all(|byte| byte.is_ascii_alphanumeric() || *byte == b'-' || *byte == b'_')
}
