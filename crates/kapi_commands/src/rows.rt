//! What `kapi check` and `kapi audit --log` find, as rows.
use kapi_lines::copy_of;
use kapi_report::Row;
use kapi_text::{Memory, Sequence, TryCopy};
use serde_json::json;
use std::alloc::Global;

/// A row as it is printed: its cells and its JSON object.
#[derive(Drop)]
pub struct TextRow {
    cells: Sequence<Sequence<u8>>,
    object: Sequence<u8>,
}

impl Row for TextRow {
    ghost told = { λ r. record { cells = r.cells; object = r.object } };

    fn cells(&self, alloc: Global) -> Result<Sequence<Sequence<u8>>, Memory> {
        self.cells.copy(alloc)
    }

    fn object(&self, alloc: Global) -> Result<Vec<u8>, Memory> {
        Vec::from_slice(alloc, self.object.as_slice())
    }
}

/// What is found at a line of a file.
pub fn finding_row(
    alloc: Global,
    file: &str,
    line: usize,
    finding: &str,
) -> Result<TextRow, Memory> {
    let place = format!(in alloc; "{file}:{line}")?;
    let object = json!(in alloc; {"file": file, "finding": finding, "line": line})?;
    Ok(TextRow {
        cells: Sequence::new(vec![in alloc;
            Sequence::new(place.into_bytes()),
            copy_of(alloc, finding.as_bytes())?,
        ]?),
        object: Sequence::new(object.to_vec(alloc)?),
    })
}

/// A request at a line of a log that the policy decides otherwise, and whether the log allows it.
pub fn difference_row(
    alloc: Global,
    line: usize,
    allowed: bool,
    request: &str,
) -> Result<TextRow, Memory> {
    let number = format!(in alloc; "{line}")?;
    let object = json!(in alloc; {"allowedByLog": allowed, "line": line, "request": request})?;
    Ok(TextRow {
        cells: Sequence::new(vec![in alloc;
            Sequence::new(number.into_bytes()),
            copy_of(alloc, answer(allowed).as_bytes())?,
            copy_of(alloc, answer(!allowed).as_bytes())?,
            copy_of(alloc, request.as_bytes())?,
        ]?),
        object: Sequence::new(object.to_vec(alloc)?),
    })
}

fn answer(allowed: bool) -> &'static str {
    if allowed { "allowed" } else { "denied" }
}

/// How often the policy denies a request of a log.
pub fn denied_row(alloc: Global, count: usize, request: &str) -> Result<TextRow, Memory> {
    let number = format!(in alloc; "{count}")?;
    let object = json!(in alloc; {"count": count, "refused": request})?;
    Ok(TextRow {
        cells: Sequence::new(vec![in alloc;
            Sequence::new(number.into_bytes()),
            copy_of(alloc, request.as_bytes())?,
        ]?),
        object: Sequence::new(object.to_vec(alloc)?),
    })
}
