//! What an identity has, as it is printed.
ghost use Rattle.std.specs.Prelude.{◌≡◌, map, IfOk};
ghost use Rattle.serde_json.specs.View.{view};
ghost use Rattle.kapi_access.specs.Given.{is_within as is_within_of, lines_within};
ghost use Rattle.kapi_policy.specs.All.{all_bindings};
ghost use Rattle.kapi_policy.specs.Views.{binding_of};
ghost use Rattle.kapi_access.specs.Rights as printed;

use crate::answer::MASTERS_OBJECT;
use crate::cells::{binding_kind, namespace_cell, targets_cell, text_of_grant, texts_cell};
use crate::rights_of::{GivenBy, given_lines, what};
use crate::scoped::ScopedRule;
use kapi_lines::Form;
use kapi_model::Identity;
use kapi_object::tree_form::{ToTree, put_string, write_items};
use kapi_policy::{Binding, Policy};
use kapi_report::{Row, Words, report};
use kapi_text::{Memory, Sequence, Text};
use serde_json::{Map, Value, put};
use std::alloc::Global;
use std::collections::BTreeMap;

/// Of whom it is asked what they have, in a namespace or, without one, everywhere.
#[derive(Drop)]
pub struct Holder {
    pub identity: Identity,
    pub within: Option<Text>,
}

// ---- rows

/// A rule, where it counts, and by what it is given.
#[derive(Drop)]
struct Right<'a> {
    at: &'a ScopedRule,
    by: &'a [GivenBy],
}

fn given_cell(alloc: Global, list: &[GivenBy]) -> Result<Sequence<u8>, Memory>
    ensures { IfOk result (λ s. s ≡ printed.all_given list.now) }
{
    let mut texts = Vec::new(alloc);
    for by in list {
        let binding = by.binding.as_str();
        texts.push(text_of_grant(alloc, by.kind, binding, &by.role, by.rule)?)?;
    }
    Ok(Sequence::new(texts.join(alloc, "; ")?.into_bytes()))
}

impl ToTree for GivenBy {
    ghost use Rattle.kapi_access.specs.Rights.{given_tree};

    ghost tree_of = { given_tree };

    fn to_tree(&self, alloc: Global) -> Result<Value, Memory> {
        let mut members = Map::new(alloc);
        put_string(alloc, &mut members, "binding", self.binding.as_str())?;
        put_string(alloc, &mut members, "bindingKind", binding_kind(self.kind))?;
        put_string(alloc, &mut members, "role", self.role.name.as_str())?;
        put_string(alloc, &mut members, "roleKind", self.role.kind.as_str())?;
        put(&mut members, alloc, "rule", Value::from(self.rule as u64))?;
        Ok(Value::Object(members))
    }
}

#[tactic(auto, unfolding(crate::specs::Rights::right_tree))]
fn right_tree(alloc: Global, at: &ScopedRule, by: &[GivenBy]) -> Result<Value, Memory>
    ensures { IfOk result (λ v. view v ≡ printed.right_tree (at.now, by.now)) }
{
    let by = Value::Array(write_items(alloc, by)?);
    let mut members = Map::new(alloc);
    put(&mut members, alloc, "by", by)?;
    put_string(alloc, &mut members, "namespace", at.namespace.as_str())?;
    put(&mut members, alloc, "rule", at.rule.to_tree(alloc)?)?;
    Ok(Value::Object(members))
}

impl Row for Right<'_> {
    ghost use Rattle.kapi_access.specs.Rights.{right_row};

    ghost told = { λ r. right_row (r.at.now, r.by.now) };

    fn cells(&self, alloc: Global) -> Result<Sequence<Sequence<u8>>, Memory> {
        let rule = &self.at.rule;
        Ok(Sequence::new(vec![in alloc;
            texts_cell(alloc, rule.verbs.as_slice())?,
            targets_cell(alloc, rule)?,
            texts_cell(alloc, rule.resource_names.as_slice())?,
            namespace_cell(alloc, self.at.namespace.as_str())?,
            given_cell(alloc, self.by)?,
        ]?))
    }

    #[tactic(auto, using(crate::proofs::Floatless::right_has_no_float))]
    fn object(&self, alloc: Global) -> Result<Vec<u8>, Memory> {
        right_tree(alloc, self.at, self.by)?.to_vec(alloc)
    }
}

// ---- the answer

/// Whether rules of the namespace are asked for; those of the whole cluster, under an empty one, always are.
fn is_within(within: &Option<Text>, namespace: &str) -> bool
    ensures { result ≡ is_within_of within.now namespace.now }
{
    match within {
        Some(asked) => namespace.is_empty() || namespace == asked.as_str(),
        None => true,
    }
}

fn rights_within<'a>(
    alloc: Global,
    within: &Option<Text>,
    lines: &'a BTreeMap<ScopedRule, Sequence<GivenBy>>,
) -> Result<Vec<Right<'a>>, Memory>
    ensures { IfOk result (λ v. map (λ r. (r.at.now, r.by.now)) v.items ≡ lines_within within.now lines.now.entries) }
{
    let mut rows = Vec::new(alloc);
    for (at, by) in lines {
        if is_within(within, at.namespace.as_str()) {
            let by = by.as_slice();
            rows.push(Right { at, by })?;
        }
    }
    Ok(rows)
}

fn rights_text(
    alloc: Global,
    form: Form,
    master: bool,
    rows: &[Right<'_>],
) -> Result<Vec<u8>, Memory>
    ensures { IfOk result (λ v. v.items ≡ printed.rights_text form master (map (λ r. (r.at.now, r.by.now)) rows.now)) }
{
    let heads = ["VERBS", "RESOURCES", "NAMES", "SCOPE", "BY"];
    let none = "Nothing is allowed.\n";
    if master {
        let everything = Words {
            cells: &["*", "*", "-", "*", "Group system:masters"],
            object: MASTERS_OBJECT,
        };
        return report(alloc, form, &heads, none, &[everything], rows);
    }
    report(alloc, form, &heads, none, &[], rows)
}

/// What a user has, given all bindings of the policy: a line for each rule and scope, with all bindings by which it is given.
pub fn answer_what<P: Policy>(
    alloc: Global,
    form: Form,
    policy: &P,
    bindings: &[Binding<'_>],
    holder: &Holder,
) -> Result<Vec<u8>, Memory>
    requires { map binding_of bindings.now ≡ all_bindings (P.content policy.now) }
    ensures { IfOk result (λ v. v.items ≡ printed.what_text form (P.content policy.now) holder.now) }
{
    let given = what(alloc, policy, bindings, &holder.identity)?;
    let lines = given_lines(alloc, given)?;
    let rows = rights_within(alloc, &holder.within, &lines)?;
    rights_text(alloc, form, holder.identity.is_master(), rows.as_slice())
}
