ghost use Rattle.std.specs.Prelude.{◌≡◌, Some, IfOk, OnOk};
ghost use Rattle.serde_json.specs.Data.{no_members};
ghost use Rattle.serde_json.specs.View.{view, members_view};
ghost use Rattle.kapi_object.specs.Contents as form;
ghost use Rattle.kapi_object.specs.Contents.{aggregation_in, labels_in, operator_at};
ghost use Rattle.kapi_object.specs.Tree.{member_of, members_or_none, put_if};

use crate::tree::{has_no_members, member};
use crate::tree_form::{
    FromTree, ToTree, put_items, put_texts, read_list, read_text, text_value, write_items,
};
use kapi_model::{AggregationRule, Label, Operator, Requirement, Selector};
use kapi_text::{Memory, Sequence, Text};
use serde_json::{Map, Value, put};
use std::alloc::Global;

/// The operator that is the member of a key; any other text is as In.
fn read_operator(alloc: Global, tree: &Value, key: &str) -> Result<Operator, Memory>
    ensures { IfOk result (λ o. o ≡ operator_at key.now (view tree.now)) }
{
    let text = read_text(alloc, tree, key)?;
    match Operator::read(text.as_str()) {
        Some(operator) => Ok(operator),
        None => Ok(Operator::In),
    }
}

impl FromTree for Requirement {
    ghost use Rattle.kapi_object.specs.Contents.{requirement_of};

    ghost read_of = { requirement_of };

    fn read(alloc: Global, tree: &Value) -> Result<Requirement, Memory> {
        Ok(Requirement {
            key: read_text(alloc, tree, "key")?,
            operator: read_operator(alloc, tree, "operator")?,
            values: read_list(alloc, tree, "values")?,
        })
    }
}

impl ToTree for Requirement {
    ghost use Rattle.kapi_object.specs.Contents.{requirement_tree};

    ghost tree_of = { requirement_tree };

    #[tactic(auto, unfolding(crate::specs::Contents::requirement_tree))]
    fn to_tree(&self, alloc: Global) -> Result<Value, Memory> {
        let mut members = Map::new(alloc);
        put(
            &mut members,
            alloc,
            "key",
            text_value(alloc, self.key.as_str())?,
        )?;
        put(
            &mut members,
            alloc,
            "operator",
            text_value(alloc, self.operator.as_str())?,
        )?;
        put_texts(alloc, &mut members, "values", self.values.as_slice())?;
        Ok(Value::Object(members))
    }
}

/// The labels that members are, in the order of their keys.
fn labels_of_members(alloc: Global, members: &Map<String, Value>) -> Result<Vec<Label>, Memory>
    ensures { IfOk result (λ v. v.items ≡ labels_in (members_view members.now.entries)) }
{
    let mut labels = Vec::new(alloc);
    for (key, value) in members {
        let key = Text::copy_of(alloc, key.as_str())?;
        let value = Text::read(alloc, value)?;
        labels.push(Label { key, value })?;
    }
    Ok(labels)
}

/// The labels that the member of a key is; none if it is absent.
pub fn read_labels(alloc: Global, tree: &Value, key: &str) -> Result<Sequence<Label>, Memory>
    ensures { IfOk result (λ s. s ≡ labels_in (members_or_none (member_of key.now (view tree.now)))) }
{
    match member(tree, key) {
        Some(Value::Object(members)) => Ok(Sequence::new(labels_of_members(alloc, members)?)),
        _other => Ok(Sequence::new(Vec::new(alloc))),
    }
}

/// The members that labels are written as.
pub fn label_members(alloc: Global, labels: &[Label]) -> Result<Map<String, Value>, Memory>
    ensures { IfOk result (λ m. members_view m.entries ≡ form.put_labels labels.now no_members) }
{
    let mut members = Map::new(alloc);
    for label in labels {
        let value = text_value(alloc, label.value.as_str())?;
        put(&mut members, alloc, label.key.as_str(), value)?;
    }
    Ok(members)
}

/// Puts an object at a key, unless it is empty.
pub fn put_members(
    alloc: Global,
    members: &mut Map<String, Value>,
    key: &str,
    inner: Map<String, Value>,
) -> Result<(), Memory>
    ensures { OnOk result (members_view members.new.entries
        ≡ put_if key.now (form.members_value (members_view inner.entries)) (members_view members.old.entries)) }
{
    if has_no_members(&inner) {
        return Ok(());
    }
    put(members, alloc, key, Value::Object(inner))
}

impl FromTree for Selector {
    ghost use Rattle.kapi_object.specs.Contents.{selector_of};

    ghost read_of = { selector_of };

    fn read(alloc: Global, tree: &Value) -> Result<Selector, Memory> {
        Ok(Selector {
            match_labels: read_labels(alloc, tree, "matchLabels")?,
            match_expressions: read_list(alloc, tree, "matchExpressions")?,
        })
    }
}

impl ToTree for Selector {
    ghost use Rattle.kapi_object.specs.Contents.{selector_tree};

    ghost tree_of = { selector_tree };

    #[tactic(auto, unfolding(crate::specs::Contents::selector_tree))]
    fn to_tree(&self, alloc: Global) -> Result<Value, Memory> {
        let mut members = Map::new(alloc);
        let labels = label_members(alloc, self.match_labels.as_slice())?;
        put_members(alloc, &mut members, "matchLabels", labels)?;
        let expressions = write_items(alloc, self.match_expressions.as_slice())?;
        put_items(alloc, &mut members, "matchExpressions", expressions)?;
        Ok(Value::Object(members))
    }
}

impl FromTree for AggregationRule {
    ghost use Rattle.kapi_object.specs.Contents.{aggregation_of};

    ghost read_of = { aggregation_of };

    fn read(alloc: Global, tree: &Value) -> Result<AggregationRule, Memory> {
        Ok(AggregationRule {
            cluster_role_selectors: read_list(alloc, tree, "clusterRoleSelectors")?,
        })
    }
}

impl ToTree for AggregationRule {
    ghost use Rattle.kapi_object.specs.Contents.{aggregation_tree};

    ghost tree_of = { aggregation_tree };

    #[tactic(auto, unfolding(crate::specs::Contents::aggregation_tree))]
    fn to_tree(&self, alloc: Global) -> Result<Value, Memory> {
        let mut members = Map::new(alloc);
        let selectors = Value::Array(write_items(alloc, self.cluster_role_selectors.as_slice())?);
        put(&mut members, alloc, "clusterRoleSelectors", selectors)?;
        Ok(Value::Object(members))
    }
}

/// The aggregation rule of a cluster role, if it has one.
pub fn read_aggregation(alloc: Global, tree: &Value) -> Result<Option<AggregationRule>, Memory>
    ensures { IfOk result (λ o. o ≡ aggregation_in (view tree.now)) }
{
    match member(tree, "aggregationRule") {
        Some(rule) => Ok(Some(AggregationRule::read(alloc, rule)?)),
        None => Ok(None),
    }
}

/// Puts the aggregation rule of a cluster role that has one.
pub fn put_aggregation(
    alloc: Global,
    members: &mut Map<String, Value>,
    rule: &AggregationRule,
) -> Result<(), Memory>
    ensures { OnOk result (members_view members.new.entries
        ≡ form.put_aggregation (Some rule.now) (members_view members.old.entries)) }
{
    put(members, alloc, "aggregationRule", rule.to_tree(alloc)?)
}
