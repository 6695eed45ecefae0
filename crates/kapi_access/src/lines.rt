//! Questions of a file, a question a line.
ghost use Rattle.std.specs.Prelude.{◌≡◌, ◌++◌, IfOk, OnOk, map};
ghost use Rattle.kapi_text.specs.ResultIs.{ResultIs};
ghost use Rattle.kapi_lines.specs.Lines.{line_of};
ghost use Rattle.kapi_policy.specs.All.{all_bindings};
ghost use Rattle.kapi_policy.specs.Views.{binding_of};
ghost use Rattle.kapi_access.specs.Lines as told;
ghost use Rattle.kapi_access.specs.Lines.{answered, answered_lines, model_of_fault};
ghost use Rattle.kapi_access.specs.Answers.{who_text};

use crate::answer::answer_who;
use crate::question::{ScopedPoint, read_question_line};
use kapi_lines::{Form, Line};
use kapi_policy::{Binding, Policy};
use kapi_report::escape;
use kapi_text::Memory;
use std::alloc::Global;

/// Why lines have no answer.
#[derive(Clone, Copy, PartialEq, Eq)]
pub enum LineFault {
    /// The line of this number is no question; the first line of a file is 1.
    Question(usize),
    Memory,
}

impl From<Memory> for LineFault {
    ghost use Rattle.std.specs.Prelude.{◌≡◌};
    ghost use Rattle.kapi_access.specs.declared.lines.LineFault.TheVariants.{Memory as NoMemory};

    ghost from_gives = { λ _ e. e ≡ NoMemory };

    fn from(_refused: Memory) -> LineFault {
        LineFault::Memory
    }
}

fn push_head_text(alloc: Global, text: &mut Vec<u8>, line: &Line<'_>) -> Result<(), Memory>
    ensures { OnOk result (text.new.items ≡ text.old.items ++ told.head_words (line_of line.now)) }
{
    let number = line.number;
    text.extend_from_slice(format!(in alloc; "line {number}: ")?.as_bytes())?;
    text.extend_from_slice(escape(alloc, line.text)?.as_slice())?;
    text.extend_from_slice(b"\n")
}

/// The line with the question, above its answer.
fn push_head(alloc: Global, form: Form, text: &mut Vec<u8>, line: &Line<'_>) -> Result<(), Memory>
    ensures { OnOk result (text.new.items ≡ text.old.items ++ told.head form (line_of line.now)) }
{
    match form {
        Form::Table => push_head_text(alloc, text, line),
        Form::Markdown => {
            text.extend_from_slice(b"\n")?;
            push_head_text(alloc, text, line)?;
            text.extend_from_slice(b"\n")
        }
        Form::Json => {
            let number = line.number;
            text.extend_from_slice(format!(in alloc; "{{\"line\":{number}}}\n")?.as_bytes())
        }
    }
}

/// The answer to a question that a line is.
fn answer_wanted<P: Policy>(
    alloc: Global,
    form: Form,
    policy: &P,
    bindings: &[Binding<'_>],
    line: &Line<'_>,
    wanted: &ScopedPoint,
) -> Result<Vec<u8>, Memory>
    requires { map binding_of bindings.now ≡ all_bindings (P.content policy.now) }
    ensures { IfOk result (λ v. v.items ≡ told.head form (line_of line.now) ++ who_text form (P.content policy.now) wanted.now) }
{
    let mut text = Vec::new(alloc);
    push_head(alloc, form, &mut text, line)?;
    let answer = answer_who(alloc, form, policy, bindings, wanted)?;
    text.extend_from_slice(answer.as_slice())?;
    Ok(text)
}

/// The answer to a line.
fn answer_line<P: Policy>(
    alloc: Global,
    form: Form,
    policy: &P,
    bindings: &[Binding<'_>],
    line: &Line<'_>,
) -> Result<Vec<u8>, LineFault>
    requires { map binding_of bindings.now ≡ all_bindings (P.content policy.now) }
    ensures { ResultIs model_of_fault (λ v. v.items) result (answered form (P.content policy.now) (line_of line.now)) }
{
    match read_question_line(alloc, line.text)? {
        Some(wanted) => Ok(answer_wanted(alloc, form, policy, bindings, line, &wanted)?),
        None => Err(LineFault::Question(line.number)),
    }
}

/// Who may do what each line asks, given all bindings of the policy: the line and its answer, one behind the other.
///
/// # Errors
/// `Question` at the first line that is no question, `Memory` if memory runs out.
pub fn answer_lines<P: Policy>(
    alloc: Global,
    form: Form,
    policy: &P,
    bindings: &[Binding<'_>],
    lines: &[Line<'_>],
) -> Result<Vec<u8>, LineFault>
    requires { map binding_of bindings.now ≡ all_bindings (P.content policy.now) }
    ensures { ResultIs model_of_fault (λ v. v.items) result (answered_lines form (P.content policy.now) (map line_of lines.now)) }
{
    let mut text = Vec::new(alloc);
    for line in lines {
        match answer_line(alloc, form, policy, bindings, line) {
            Ok(answer) => text.extend_from_slice(answer.as_slice())?,
            Err(fault) => return Err(fault),
        }
    }
    Ok(text)
}
