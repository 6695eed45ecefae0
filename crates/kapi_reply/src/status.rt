ghost use Rattle.std.specs.Prelude.{◌≡◌, ◌++◌, map as map_of, string_bytes, IfOk, OnOk};
ghost use Rattle.serde_json.specs.Data.{array, string};
ghost use Rattle.serde_json.specs.View.{view, items_of};
ghost use Rattle.serde_json.specs.Written.{compact_text};
ghost use Rattle.kapi_reply.specs.Private.Tokens.{data_tokens};
ghost use Rattle.kapi_reply.specs.Status as status_object;
ghost use Rattle.kapi_reply.specs.Views.{cause_data};

use crate::tokens::{text_of, write_texts};
use json::Writer;
use kapi_http::{Method, StatusCode};
use kapi_model::FieldFault;
use kapi_object::tree_form::text_value;
use kapi_rules::{Atom, Names, Point, ResourceAtom};
use kapi_text::Memory;
use serde_json::Value;
use std::alloc::Global;

/// The room that the text of most points and atoms does not outgrow.
const PARTS_ROOM: usize = 128;

/// The subject of a failure: a resource request's group, resource and name, each left out if it is empty.
#[derive(Clone, Copy)]
pub struct Subject<'a> {
    pub group: &'a str,
    pub resource: &'a str,
    pub name: &'a str,
}

/// A cause of a failure.
#[derive(Drop)]
pub enum Cause {
    /// The parts that no rule grants, as the text of a JSON list.
    Missing(String),
    Field(WrongField),
}

/// A field of a body and the words for what is wrong with it.
#[derive(Drop)]
pub struct WrongField {
    pub field: String,
    pub words: &'static str,
}

/// A failure that is reported in a reply.
#[derive(Drop)]
pub struct Failure {
    pub code: StatusCode,
    /// One word for programs; empty for faults that Kubernetes has no word for.
    pub reason: &'static str,
    pub message: String,
    /// What was missing or wrong; may be empty.
    pub causes: Vec<Cause>,
    /// The served methods, if the method of the request is not served; else empty.
    pub allow: &'static [Method],
}

/// The cause of a denial: the point that no rule allows.
pub fn missing_permission(alloc: Global, point: &Point) -> Result<Cause, Memory>
    ensures { IfOk result (λ c. cause_data c ≡ status_object.missing_permission point.now) }
{
    Ok(Cause::Missing(point_text(alloc, point)?))
}

/// The cause of an escalation's refusal: a part of the written rules that the caller does not hold.
pub fn missing_atom(alloc: Global, atom: &Atom) -> Result<Cause, Memory>
    ensures { IfOk result (λ c. cause_data c ≡ status_object.missing_atom atom.now) }
{
    Ok(Cause::Missing(atom_text(alloc, atom)?))
}

/// The parts of a point as the text of a JSON list.
#[tactic(auto, using(crate::proofs::StatusTexts::print_outline))]
fn point_text(alloc: Global, point: &Point) -> Result<String, Memory>
    ensures { IfOk result (λ s. string_bytes s ≡ compact_text (status_object.point_list point.now)) }
{
    let mut out = Writer::new(Vec::with_capacity(alloc, PARTS_ROOM)?);
    write_point(&mut out, point)?;
    Ok(text_of(out))
}

/// Writes the parts of a point as a JSON list.
fn write_point(out: &mut Writer, point: &Point) -> Result<(), Memory>
    ensures tokens { OnOk result (out.new.tokens ≡ out.old.tokens ++ data_tokens (status_object.point_list point.now)) }
    ensures before { OnOk result (out.new.before ≡ out.old.before) }
{
    match point {
        Point::Resource(point) => {
            let parts = [
                point.verb.as_str(),
                point.group.as_str(),
                point.resource.as_str(),
                point.subresource.as_str(),
                point.name.as_str(),
            ];
            write_texts(out, &parts)
        }
        Point::Url(point) => write_texts(out, &[point.verb.as_str(), point.path.as_str()]),
    }
}

/// The parts of an atom as the text of a JSON list.
#[tactic(auto, using(crate::proofs::StatusTexts::print_outline))]
fn atom_text(alloc: Global, atom: &Atom) -> Result<String, Memory>
    ensures { IfOk result (λ s. string_bytes s ≡ compact_text (status_object.atom_list atom.now)) }
{
    let mut out = Writer::new(Vec::with_capacity(alloc, PARTS_ROOM)?);
    write_atom(&mut out, atom)?;
    Ok(text_of(out))
}

/// Writes the parts of an atom as a JSON list: its name is left out if it speaks of all names.
fn write_atom(out: &mut Writer, atom: &Atom) -> Result<(), Memory>
    ensures tokens { OnOk result (out.new.tokens ≡ out.old.tokens ++ data_tokens (status_object.atom_list atom.now)) }
    ensures before { OnOk result (out.new.before ≡ out.old.before) }
{
    match atom {
        Atom::Resource(atom) => write_resource_atom(out, atom),
        Atom::Url(atom) => write_texts(out, &[atom.verb.as_str(), atom.url.as_str()]),
    }
}

/// Writes the parts of an atom on a resource.
fn write_resource_atom(out: &mut Writer, atom: &ResourceAtom) -> Result<(), Memory>
    ensures tokens { OnOk result (out.new.tokens ≡ out.old.tokens ++ data_tokens (status_object.resource_atom_list atom.now)) }
    ensures before { OnOk result (out.new.before ≡ out.old.before) }
{
    let verb = atom.verb.as_str();
    let group = atom.group.as_str();
    let resource = atom.resource.as_str();
    match &atom.names {
        Names::All => write_texts(out, &[verb, group, resource]),
        Names::One(name) => write_texts(out, &[verb, group, resource, name.as_str()]),
    }
}

/// The texts as values, in order.
fn text_items(alloc: Global, texts: &[&str]) -> Result<Vec<Value>, Memory>
    ensures { IfOk result (λ v. map_of view v.items ≡ map_of (λ text. string text.now) texts.now) }
{
    let mut items = Vec::new(alloc);
    for text in texts {
        items.push(text_value(alloc, text)?)?;
    }
    Ok(items)
}

/// A list of texts.
fn text_list(alloc: Global, texts: &[&str]) -> Result<Value, Memory>
    ensures { IfOk result (λ v. view v ≡ array (items_of (map_of (λ text. string text.now) texts.now))) }
{
    Ok(Value::Array(text_items(alloc, texts)?))
}

/// The parts of an atom as a JSON list: its name is left out if it speaks of all names.
pub fn atom_list(alloc: Global, atom: &Atom) -> Result<Value, Memory>
    ensures { IfOk result (λ v. view v ≡ status_object.atom_list atom.now) }
{
    match atom {
        Atom::Resource(atom) => resource_atom_list(alloc, atom),
        Atom::Url(atom) => text_list(alloc, &[atom.verb.as_str(), atom.url.as_str()]),
    }
}

/// The parts of an atom on a resource.
fn resource_atom_list(alloc: Global, atom: &ResourceAtom) -> Result<Value, Memory>
    ensures { IfOk result (λ v. view v ≡ status_object.resource_atom_list atom.now) }
{
    let verb = atom.verb.as_str();
    let group = atom.group.as_str();
    let resource = atom.resource.as_str();
    match &atom.names {
        Names::All => text_list(alloc, &[verb, group, resource]),
        Names::One(name) => text_list(alloc, &[verb, group, resource, name.as_str()]),
    }
}

/// The causes of a denial of several points, in their order.
pub fn missing_permissions(alloc: Global, points: &[Point]) -> Result<Vec<Cause>, Memory>
    ensures { IfOk result (λ v. map_of cause_data v.items ≡ map_of status_object.missing_permission points.now) }
{
    let mut causes = Vec::new(alloc);
    for point in points {
        causes.push(missing_permission(alloc, point)?)?;
    }
    Ok(causes)
}

/// The causes of an escalation's refusal, in the order of the missing parts.
pub fn missing_atoms(alloc: Global, atoms: &[Atom]) -> Result<Vec<Cause>, Memory>
    ensures { IfOk result (λ v. map_of cause_data v.items ≡ map_of status_object.missing_atom atoms.now) }
{
    let mut causes = Vec::new(alloc);
    for atom in atoms {
        causes.push(missing_atom(alloc, atom)?)?;
    }
    Ok(causes)
}

/// The cause of a body's refusal: a field and the words for what is wrong with it.
fn field_cause(alloc: Global, field: &str, words: &'static str) -> Result<Cause, Memory>
    ensures { IfOk result (λ c. cause_data c ≡ status_object.field_cause field.now words.now) }
{
    Ok(Cause::Field(WrongField {
        field: String::from_str(alloc, field)?,
        words,
    }))
}

/// The cause if a binding is to refer to another role.
pub fn changed_role_ref(alloc: Global) -> Result<Cause, Memory>
    ensures { IfOk result (λ c. cause_data c ≡ status_object.changed_role_ref) }
{
    field_cause(alloc, "roleRef", "may not change")
}

fn invalid_field(alloc: Global, fault: &FieldFault) -> Result<Cause, Memory>
    ensures { IfOk result (λ c. cause_data c ≡ status_object.invalid_field fault.now) }
{
    field_cause(alloc, fault.field.as_str(), fault.cause.as_str())
}

/// The causes of a body's refusal, in the order of its faults.
pub fn invalid_fields(alloc: Global, faults: &[FieldFault]) -> Result<Vec<Cause>, Memory>
    ensures { IfOk result (λ v. map_of cause_data v.items ≡ map_of status_object.invalid_field faults.now) }
{
    let mut causes = Vec::new(alloc);
    for fault in faults {
        causes.push(invalid_field(alloc, fault)?)?;
    }
    Ok(causes)
}
