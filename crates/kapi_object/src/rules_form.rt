ghost use Rattle.std.specs.Prelude.{◌≡◌, IfOk};
ghost use Rattle.serde_json.specs.View.{view};
ghost use Rattle.kapi_object.specs.Contents.{rules_of};

use crate::tree_form::{FromTree, ToTree, put_texts, read_list, write_items};
use kapi_model::PolicyRule;
use kapi_text::{Memory, Sequence};
use serde_json::{Map, Value, put};
use std::alloc::Global;

impl FromTree for PolicyRule {
    ghost use Rattle.kapi_object.specs.Contents.{rule_of};

    ghost read_of = { rule_of };

    fn read(alloc: Global, tree: &Value) -> Result<PolicyRule, Memory> {
        Ok(PolicyRule {
            verbs: read_list(alloc, tree, "verbs")?,
            api_groups: read_list(alloc, tree, "apiGroups")?,
            resources: read_list(alloc, tree, "resources")?,
            resource_names: read_list(alloc, tree, "resourceNames")?,
            non_resource_urls: read_list(alloc, tree, "nonResourceURLs")?,
        })
    }
}

impl ToTree for PolicyRule {
    ghost use Rattle.kapi_object.specs.Contents.{rule_tree};

    ghost tree_of = { rule_tree };

    #[tactic(auto, unfolding(crate::specs::Contents::rule_tree))]
    fn to_tree(&self, alloc: Global) -> Result<Value, Memory> {
        let mut members = Map::new(alloc);
        let verbs = Value::Array(write_items(alloc, self.verbs.as_slice())?);
        put(&mut members, alloc, "verbs", verbs)?;
        put_texts(alloc, &mut members, "apiGroups", self.api_groups.as_slice())?;
        put_texts(alloc, &mut members, "resources", self.resources.as_slice())?;
        let names = self.resource_names.as_slice();
        put_texts(alloc, &mut members, "resourceNames", names)?;
        let urls = self.non_resource_urls.as_slice();
        put_texts(alloc, &mut members, "nonResourceURLs", urls)?;
        Ok(Value::Object(members))
    }
}

/// The rules of a role.
pub fn read_rules(alloc: Global, tree: &Value) -> Result<Sequence<PolicyRule>, Memory>
    ensures { IfOk result (λ s. s ≡ rules_of (view tree.now)) }
{
    read_list(alloc, tree, "rules")
}
