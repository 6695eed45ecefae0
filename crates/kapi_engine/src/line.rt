//! The line of a decision.
ghost use Rattle.std.specs.Prelude.{◌≡◌, ◌++◌, IfOk, OnOk};
ghost use Rattle.kapi_policy.specs.Views.{decision_of};
ghost use Rattle.kapi_lines.specs.Escapes.{escaped};
ghost use Rattle.kapi_engine.specs.Lines.{decision_line as line_of_decision};

use kapi_lines::write_escaped;
use kapi_policy::Decision;
use kapi_reviews::reason;
use kapi_text::{Memory, Sequence};
use std::alloc::{AllocError, Global};

/// The line of a decision: `denied`, or `allowed` and the reason that a review reports, in printable ASCII.
pub fn decision_line(alloc: Global, decision: &Decision<'_>) -> Result<Sequence<u8>, Memory>
    ensures { IfOk result (λ t. t ≡ line_of_decision (decision_of decision.now)) }
{
    let mut text = Vec::new(alloc);
    match reason(alloc, decision)? {
        Some(reason) => {
            text.extend_from_slice(b"allowed ")?;
            push_escaped(&mut text, reason.as_str().as_bytes())?;
            text.push(b'\n')?;
        }
        None => text.extend_from_slice(b"denied\n")?,
    }
    Ok(Sequence::new(text))
}

fn push_escaped(text: &mut Vec<u8>, bytes: &[u8]) -> Result<(), Memory>
    ensures { OnOk result (text.new.items ≡ text.old.items ++ escaped bytes.now) }
{
    match write_escaped(text, bytes) {
        Ok(()) => Ok(()),
        Err(_refused) => Err(AllocError),
    }
}
