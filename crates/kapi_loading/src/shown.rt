//! A reason as one line.
ghost use Rattle.std.specs.Prelude.{◌≡◌, true, IfOk, OnOk, string_bytes};
ghost use Rattle.std.specs.List.{list_all};
ghost use Rattle.kapi_loading.specs.Reasons.{is_reason, is_shown};

use kapi_text::Memory;
use std::alloc::Global;

/// A reason as one line: a control character is a `?`, since names that a file gives may have some.
pub fn one_line(alloc: Global, reason: &str) -> Result<String, Memory>
    ensures { IfOk result (λ s. is_reason (string_bytes s) ≡ true) }
{
    let mut line = String::new(alloc);
    for character in reason.chars() {
        push_shown(&mut line, character)?;
    }
    if line.is_empty() {
        line.push_str("no reason is told")?;
    }
    Ok(line)
}

#[tactic(auto, using(crate::proofs::Characters::shown_more))]
fn push_shown(line: &mut String, character: char) -> Result<(), Memory>
    ensures { OnOk result (list_all is_shown (string_bytes line.new) ≡ list_all is_shown (string_bytes line.old)) }
{
    if character.is_control() {
        line.push('?')
    } else {
        line.push(character)
    }
}
