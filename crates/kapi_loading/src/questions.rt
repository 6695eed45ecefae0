//! Why a line is no question.
ghost use Rattle.std.specs.Prelude.{◌≡◌, ◌==◌, true, is_some, map, IfOk, IfSome, string_bytes};
ghost use Rattle.std.specs.List.{list_any};
ghost use Rattle.kapi_lines.specs.Lines.{line_of, lines_of};
ghost use Rattle.kapi_loading.specs.Reasons.{is_reason};

use crate::reasons::{FLOAT, fault_words, read_line};
use crate::shown::one_line;
use kapi_index::IndexedPolicy;
use kapi_lines::{Line, numbered_lines};
use kapi_model::Identity;
use kapi_reviews::{ReviewError, ReviewKind, review};
use kapi_text::{Memory, Sequence, Text};
use serde_json::{Map, Value, put};
use std::alloc::{AllocError, Global};

/// Why the line of this number of a file of questions is no `spec` of a SubjectAccessReview; the first line is 1.
/// Nothing if the file has no line of this number that is neither empty nor a comment.
pub fn question_reason(
    alloc: Global,
    questions: &[u8],
    number: usize,
) -> Result<Option<String>, Memory>
    ensures bad { IfOk result (λ reason. is_some reason ≡ list_any (λ l. l.number == number) (lines_of questions.now)) }
    ensures line { IfOk result (λ reason. IfSome reason (λ r. is_reason (string_bytes r) ≡ true)) }
{
    let lines = numbered_lines(alloc, questions)?;
    match line_at(lines.as_slice(), number) {
        Some(line) => Ok(Some(line_reason(alloc, line)?)),
        None => Ok(None),
    }
}

/// The line of this number, if there is one.
fn line_at<'a>(lines: &[Line<'a>], number: usize) -> Option<&'a [u8]>
    ensures { is_some result ≡ list_any (λ l. l.number == number) (map line_of lines.now) }
{
    let mut rest = lines;
    while let [line, later @ ..] = rest {
        if line.number == number {
            return Some(line.text);
        }
        rest = later;
    }
    None
}

fn line_reason(alloc: Global, line: &[u8]) -> Result<String, Memory>
    ensures { IfOk result (λ r. is_reason (string_bytes r) ≡ true) }
{
    let reason = match read_line(alloc, line)? {
        Ok(spec) => review_reason(alloc, spec)?,
        Err(reason) => reason,
    };
    one_line(alloc, reason.as_str())
}

/// Why a review with this `spec` is refused.
fn review_reason(alloc: Global, spec: Value) -> Result<String, Memory> {
    let mut members = Map::new(alloc);
    put(&mut members, alloc, "spec", spec)?;
    let tree = Value::Object(members);
    let nobody = Identity {
        user: Text::copy_of(alloc, "")?,
        groups: Sequence::new(Vec::new(alloc)),
    };
    let policy = IndexedPolicy::new(alloc);
    let kind = ReviewKind::SubjectAccessReview;
    let reason = match review(alloc, &policy, &nobody, kind, &tree) {
        Ok(_answer) => String::from_str(alloc, FLOAT)?,
        Err(ReviewError::Invalid(faults)) => fault_words(alloc, faults.as_slice())?,
        Err(ReviewError::Memory) => return Err(AllocError),
    };
    format!(in alloc; "as the spec of a SubjectAccessReview: {reason}")
}
