//! Gains and ways as rows.
ghost use Rattle.std.specs.Prelude.{◌≡◌, IfOk};
ghost use Rattle.serde_json.specs.View.{members_view};
ghost use Rattle.kapi_policy.specs.Views.{binding_of};
ghost use Rattle.kapi_access.specs.Cells.{by_text};
ghost use Rattle.kapi_access.specs.Rows as rows;

use crate::cells::{
    binding_kind, joined, marked_cell, namespace_cell, rule_text, subject_cell, subject_kind,
    subject_name, text_of_grant,
};
use crate::gained::Gain;
use crate::gained_rules::GainedRule;
use crate::grantee::Grantee;
use crate::way::Way;
use kapi_object::tree_form::put_string;
use kapi_policy::Binding;
use kapi_reply::atom_list;
use kapi_report::Row;
use kapi_text::{Memory, Sequence};
use serde_json::{Map, Value, put};
use std::alloc::Global;

/// A binding, the index of its role's rule, and a subject, as members of an object.
fn bound_members(
    alloc: Global,
    to: &Grantee,
    binding: &Binding<'_>,
    rule: usize,
) -> Result<Map<String, Value>, Memory>
    ensures { IfOk result (λ m. members_view m.entries ≡ rows.bound_members to.now (binding_of binding.now) rule) }
{
    let mut members = Map::new(alloc);
    put_string(alloc, &mut members, "binding", binding.name)?;
    put_string(
        alloc,
        &mut members,
        "bindingKind",
        binding_kind(binding.kind),
    )?;
    put_string(alloc, &mut members, "namespace", binding.namespace)?;
    put_string(alloc, &mut members, "role", binding.role.name.as_str())?;
    put_string(alloc, &mut members, "roleKind", binding.role.kind.as_str())?;
    put(&mut members, alloc, "rule", Value::from(rule as u64))?;
    put_string(alloc, &mut members, "subject", subject_name(to))?;
    put_string(alloc, &mut members, "subjectKind", subject_kind(to))?;
    Ok(members)
}

fn by_cell(alloc: Global, binding: &Binding<'_>, rule: usize) -> Result<Sequence<u8>, Memory>
    ensures { IfOk result (λ s. s ≡ by_text (binding_of binding.now) rule) }
{
    let text = text_of_grant(alloc, binding.kind, binding.name, binding.role, rule)?;
    Ok(Sequence::new(text.into_bytes()))
}

impl Row for Gain<'_> {
    ghost use Rattle.kapi_access.specs.Rows.{gain_row};
    ghost use Rattle.kapi_access.specs.Views.{gain_of};

    ghost told = { λ g. gain_row (gain_of g) };

    fn cells(&self, alloc: Global) -> Result<Sequence<Sequence<u8>>, Memory> {
        let atom = atom_list(alloc, &self.gain)?.to_vec(alloc)?;
        Ok(Sequence::new(vec![in alloc;
            subject_cell(alloc, &self.to)?,
            namespace_cell(alloc, self.binding.namespace)?,
            Sequence::new(atom),
            by_cell(alloc, &self.binding, self.rule)?,
        ]?))
    }

    fn object(&self, alloc: Global) -> Result<Vec<u8>, Memory> {
        let mut members = bound_members(alloc, &self.to, &self.binding, self.rule)?;
        put(&mut members, alloc, "atom", atom_list(alloc, &self.gain)?)?;
        Value::Object(members).to_vec(alloc)
    }
}

impl Row for GainedRule<'_> {
    ghost use Rattle.kapi_access.specs.Rows.{gained_rule_row};
    ghost use Rattle.kapi_access.specs.Views.{gained_rule_of};

    ghost told = { λ g. gained_rule_row (gained_rule_of g) };

    fn cells(&self, alloc: Global) -> Result<Sequence<Sequence<u8>>, Memory> {
        Ok(Sequence::new(vec![in alloc;
            subject_cell(alloc, &self.to)?,
            namespace_cell(alloc, self.binding.namespace)?,
            marked_cell(alloc, &self.gain)?,
            by_cell(alloc, &self.binding, self.rule)?,
        ]?))
    }

    fn object(&self, alloc: Global) -> Result<Vec<u8>, Memory> {
        Ok(Vec::new(alloc))
    }
}

impl Row for Way<'_> {
    ghost use Rattle.kapi_access.specs.Rows.{way_row};
    ghost use Rattle.kapi_access.specs.Views.{way_of};

    ghost told = { λ w. way_row (way_of w) };

    fn cells(&self, alloc: Global) -> Result<Sequence<Sequence<u8>>, Memory> {
        Ok(Sequence::new(vec![in alloc;
            subject_cell(alloc, &self.to)?,
            namespace_cell(alloc, self.binding.namespace)?,
            joined(alloc, binding_kind(self.binding.kind), self.binding.name)?,
            Sequence::new(rule_text(alloc, self.binding.role, self.rule)?.into_bytes()),
        ]?))
    }

    fn object(&self, alloc: Global) -> Result<Vec<u8>, Memory> {
        let members = bound_members(alloc, &self.to, &self.binding, self.rule)?;
        Value::Object(members).to_vec(alloc)
    }
}
