//! Why a point is allowed, in words.
ghost use Rattle.std.specs.Prelude.{◌≡◌, ◌++◌, IfOk, OnOk, codes, decimal, string_bytes};
ghost use Rattle.kapi_policy.specs.Views.{decision_of, granted_of};
ghost use Rattle.kapi_reviews.specs.Answers as written;

use kapi_policy::{BindingKind, Decision, Grant};
use kapi_text::{Memory, Text};
use std::alloc::Global;

fn binding_text(kind: BindingKind) -> &'static str
    ensures { result.now ≡ written.binding_text kind }
{
    match kind {
        BindingKind::RoleBinding => "RoleBinding",
        BindingKind::ClusterRoleBinding => "ClusterRoleBinding",
    }
}

/// Adds a word, after what parts it from the words before.
fn push_word(text: &mut String, part: &str, word: &str) -> Result<(), Memory>
    ensures { OnOk result (string_bytes text.new ≡ string_bytes text.old ++ part.now ++ word.now) }
{
    text.push_str(part)?;
    text.push_str(word)
}

/// Adds the index of a rule.
fn push_rule(alloc: Global, text: &mut String, rule: usize) -> Result<(), Memory>
    ensures { OnOk result (string_bytes text.new ≡ string_bytes text.old ++ codes ", rule " ++ decimal rule) }
{
    let number = format!(in alloc; "{rule}")?;
    push_word(text, ", rule ", number.as_str())
}

/// The rule that allows a point, by its binding, its role and its index there.
#[tactic(auto, unfolding(crate::specs::Answers::grant_text))]
fn grant_text(alloc: Global, grant: &Grant<'_>) -> Result<String, Memory>
    ensures { IfOk result (λ s. string_bytes s ≡ written.grant_text (granted_of grant.now)) }
{
    let mut text = String::from_str(alloc, binding_text(grant.kind))?;
    push_word(&mut text, " ", grant.binding)?;
    push_word(&mut text, ", ", grant.role.kind.as_str())?;
    push_word(&mut text, " ", grant.role.name.as_str())?;
    push_rule(alloc, &mut text, grant.rule)?;
    Ok(text)
}

/// Why the point is allowed, if it is: by `RoleBinding BINDING, ROLE-KIND ROLE, rule INDEX`, or by `group
/// system:masters`.
pub fn reason(alloc: Global, decision: &Decision<'_>) -> Result<Option<Text>, Memory>
    ensures { IfOk result (λ o. o ≡ written.reason_of (decision_of decision.now)) }
{
    match decision {
        Decision::Allowed(grant) => Ok(Some(Text::new(grant_text(alloc, grant)?))),
        Decision::Masters => Ok(Some(Text::copy_of(alloc, "group system:masters")?)),
        Decision::Denied => Ok(None),
    }
}
