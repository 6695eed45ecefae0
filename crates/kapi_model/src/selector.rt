ghost use Rattle.std.specs.Prelude.{◌≡◌};
ghost use Rattle.std.specs.List.{list_all};
ghost use Rattle.kapi_model.specs.Selector as meaning;
ghost use Rattle.kapi_model.specs.Selector.{values_of};

use crate::labels::Labels;
use crate::lookup::Lookup;
use kapi_text::{Sequence, Text, TryCopy};
use std::alloc::{AllocError, Global};

/// How a requirement tests the label of its key (Kubernetes, 'Labels and Selectors').
#[derive(Clone, Copy, PartialEq, Eq)]
pub enum Operator {
    /// The label is there, and its value is listed.
    In,
    /// The label is not there, or its value is not listed.
    NotIn,
    /// The label is there.
    Exists,
    /// The label is not there.
    DoesNotExist,
}

impl Operator {
    ghost use Rattle.std.specs.Prelude.{◌≡◌};
    ghost use Rattle.kapi_model.specs.Kinds.{operator_of, operator_text};

    /// The operator as objects write it.
    pub fn as_str(self) -> &'static str
        ensures { result.now ≡ operator_text self }
    {
        match self {
            Operator::In => "In",
            Operator::NotIn => "NotIn",
            Operator::Exists => "Exists",
            Operator::DoesNotExist => "DoesNotExist",
        }
    }

    /// The operator that a text names, if any.
    pub fn read(text: &str) -> Option<Operator>
        ensures { result ≡ operator_of text.now }
    {
        match text {
            "In" => Some(Operator::In),
            "NotIn" => Some(Operator::NotIn),
            "Exists" => Some(Operator::Exists),
            "DoesNotExist" => Some(Operator::DoesNotExist),
            _other => None,
        }
    }
}

/// A requirement on labels (Kubernetes API, `LabelSelectorRequirement` of meta/v1).
#[derive(Drop)]
pub struct Requirement {
    pub key: Text,
    pub operator: Operator,
    pub values: Sequence<Text>,
}

/// A label: its key and its value.
#[derive(Drop)]
pub struct Label {
    pub key: Text,
    pub value: Text,
}

/// A selector of labels: it matches those that have each label listed and meet each requirement (Kubernetes API,
/// `LabelSelector` of meta/v1). A selector without any matches everything.
#[derive(Drop)]
pub struct Selector {
    /// The labels in the order of their keys, by bytes, where they were read of an object.
    pub match_labels: Sequence<Label>,
    pub match_expressions: Sequence<Requirement>,
}

impl TryCopy for Requirement {
    fn copy(&self, alloc: Global) -> Result<Requirement, AllocError> {
        Ok(Requirement {
            key: self.key.copy(alloc)?,
            operator: self.operator,
            values: self.values.copy(alloc)?,
        })
    }
}

impl TryCopy for Label {
    fn copy(&self, alloc: Global) -> Result<Label, AllocError> {
        Ok(Label {
            key: self.key.copy(alloc)?,
            value: self.value.copy(alloc)?,
        })
    }
}

impl TryCopy for Selector {
    fn copy(&self, alloc: Global) -> Result<Selector, AllocError> {
        Ok(Selector {
            match_labels: self.match_labels.copy(alloc)?,
            match_expressions: self.match_expressions.copy(alloc)?,
        })
    }
}

/// Whether the value is one of those listed.
fn is_listed(values: &[Text], value: &str) -> bool
    ensures { result ≡ meaning.is_listed values.now value.now }
{
    values.iter().any(|listed| listed.as_str() == value)
}

/// Whether the labels meet the requirement.
fn is_met(requirement: &Requirement, labels: &Lookup<'_>) -> bool
    ensures { result ≡ meaning.holds requirement.now.operator requirement.now.values (values_of labels.now.labels requirement.now.key) }
{
    match (requirement.operator, labels.get(&requirement.key)) {
        (Operator::In, Some(value)) => is_listed(requirement.values.as_slice(), value),
        (Operator::In, None) => false,
        (Operator::NotIn, Some(value)) => !is_listed(requirement.values.as_slice(), value),
        (Operator::NotIn, None) => true,
        (Operator::Exists, found) => found.is_some(),
        (Operator::DoesNotExist, found) => found.is_none(),
    }
}

/// Whether the labels have the label with its value.
fn has_label(label: &Label, labels: &Lookup<'_>) -> bool
    ensures { result ≡ meaning.is_text (values_of labels.now.labels label.now.key) label.now.value }
{
    match labels.get(&label.key) {
        Some(value) => value == label.value.as_str(),
        None => false,
    }
}

/// Whether the labels have each wanted label.
fn has_labels(wanted: &[Label], labels: &Lookup<'_>) -> bool
    ensures { result ≡ list_all (λ l. meaning.is_text (values_of labels.now.labels l.key) l.value) wanted.now }
{
    wanted.iter().all(|label| has_label(label, labels))
}

/// Whether the labels meet each requirement.
fn meets(requirements: &[Requirement], labels: &Lookup<'_>) -> bool
    ensures { result ≡ list_all (λ r. meaning.holds r.operator r.values (values_of labels.now.labels r.key)) requirements.now }
{
    requirements
        .iter()
        .all(|requirement| is_met(requirement, labels))
}

/// From so many labels or requirements on it pays to see first whether an object's labels are in order.
const MANY: usize = 4;

impl Selector {
    ghost use Rattle.std.specs.Prelude.{◌≡◌};
    ghost use Rattle.kapi_model.specs.Selector.{values_of};
    ghost use Rattle.kapi_model.specs.Selector as meaning;

    /// Whether the selector names so many keys that labels in order are searched for them.
    fn has_many(&self) -> bool {
        self.match_labels.as_slice().len() >= MANY
            || self.match_expressions.as_slice().len() >= MANY
    }

    /// Whether the selector matches the labels (Kubernetes, 'Labels and Selectors'). Allocates nothing.
    pub fn matches(&self, labels: &Labels<'_>) -> bool
        ensures { result ≡ meaning.matches_values self.now (values_of labels.now) }
    {
        let lookup = Lookup::of(labels, self.has_many());
        has_labels(self.match_labels.as_slice(), &lookup)
            && meets(self.match_expressions.as_slice(), &lookup)
    }
}
