//! The cluster roles of a store.
ghost use Rattle.std.specs.Prelude.{◌≡◌, [], codes, is_some, map, option_map, IfOk};
ghost use Rattle.std.specs.List.{filter};
ghost use Rattle.std.proofs.Props.{props};
ghost use Rattle.kapi_model.specs.Kinds.{rbac_group};
ghost use Rattle.kapi_model.specs.Selector.{matches};
ghost use Rattle.kapi_store.specs.Stored.{stored_tree};
ghost use Rattle.kapi_store.specs.Plain.{plain_of, trees};
ghost use Rattle.kapi_store.specs.Listing.{shown};
ghost use Rattle.kapi_rbac_types.specs.Trees.{cluster_role_of};
ghost use Rattle.kapi_aggregation.specs.Marks.{role_at, takers_in};
ghost use Rattle.kapi_aggregation.specs.Rewriting.{role_key as role_key_of};
ghost use Rattle.kapi_aggregation.specs.Roles.{IsInNameOrder, is_aggregated as is_aggregated_of, is_cluster_role as is_cluster_role_key, labelled_tree, roles_in, selectors_of};
ghost use Rattle.kapi_aggregation.specs.Views.{labelled};

use kapi_model::{PolicyRule, RBAC_GROUP, ResourceRow, Schema, Selector};
use kapi_object::rules_form::read_rules;
use kapi_store::{Key, Listed, Store, StoredObject};
use kapi_text::{Memory, Sequence, Text, TryCopy};
use std::alloc::Global;
use std::collections::BTreeSet;

/// A cluster role with its name. The rules are read only if they are asked for, since a write reads selectors and
/// labels alone.
#[derive(Clone, Copy, Drop)]
pub(crate) struct NamedRole<'a> {
    pub name: &'a Text,
    pub object: &'a StoredObject,
}

impl<'a> NamedRole<'a> {
    /// The selectors of the cluster roles that this role takes its rules from; none if it is not aggregated.
    pub(crate) fn selectors(&self) -> &[Selector]
        ensures { result.now ≡ selectors_of (labelled self.now) }
    {
        match self.object.aggregation_rule() {
            Some(rule) => rule.cluster_role_selectors.as_slice(),
            None => &[],
        }
    }

    /// The rules of the cluster role.
    pub(crate) fn rules(&self, alloc: Global) -> Result<Sequence<PolicyRule>, Memory>
        ensures { IfOk result (λ rs. rs ≡ (labelled self.now).role.rules) }
    {
        let tree = self.object.tree(alloc)?;
        read_rules(alloc, &tree)
    }

    /// Whether the cluster role takes its rules from others.
    pub(crate) fn is_aggregated(&self) -> bool
        ensures { result ≡ is_aggregated_of (labelled self.now) }
    {
        self.object.aggregation_rule().is_some()
    }
}

/// The cluster roles of a store, in the order of their names by bytes. Names and labels are borrowed from the store.
#[derive(Drop)]
pub struct ClusterRoles<'a> {
    list: Vec<NamedRole<'a>>,
    ghost ordered: { IsInNameOrder (map labelled list.items) } by { Prim.hlevel props },
}

/// Whether the key is of a cluster role.
#[tactic(auto, unfolding(crate::specs::Roles::is_cluster_role))]
pub fn is_cluster_role(key: &Key) -> bool
    ensures { result ≡ is_cluster_role_key key.now }
{
    key.group.as_str() == RBAC_GROUP
        && (key.resource.as_str() == "clusterroles" && key.namespace.as_str().is_empty())
}

/// The resource type by which cluster roles are listed.
fn cluster_roles_row(alloc: Global) -> Result<ResourceRow, Memory>
    ensures group { IfOk result (λ r. r.group ≡ rbac_group) }
    ensures plural { IfOk result (λ r. r.plural ≡ codes "clusterroles") }
{
    Ok(ResourceRow {
        group: Text::copy_of(alloc, RBAC_GROUP)?,
        version: Text::copy_of(alloc, "v1")?,
        plural: Text::copy_of(alloc, "clusterroles")?,
        kind: Text::copy_of(alloc, "ClusterRole")?,
        namespaced: false,
        has_status: false,
        schema: Schema::ClusterRole,
    })
}

/// The selector of all labels.
fn everything(alloc: Global) -> Selector
    ensures labels { result.match_labels ≡ [] }
    ensures expressions { result.match_expressions ≡ [] }
{
    Selector {
        match_labels: Sequence::new(Vec::new(alloc)),
        match_expressions: Sequence::new(Vec::new(alloc)),
    }
}

/// The place of the cluster role of a name.
pub(crate) fn role_key(alloc: Global, name: &Text) -> Result<Key, Memory>
    ensures { IfOk result (λ k. k ≡ role_key_of name.now) }
{
    Ok(Key {
        group: Text::copy_of(alloc, RBAC_GROUP)?,
        resource: Text::copy_of(alloc, "clusterroles")?,
        namespace: Text::copy_of(alloc, "")?,
        name: name.copy(alloc)?,
    })
}

/// The cluster role that a listed object is.
fn named_role<'a>(listed: &Listed<'a>) -> NamedRole<'a>
    ensures { labelled result ≡ labelled_tree (listed.now.key.now, stored_tree listed.now.object.now) }
{
    NamedRole {
        name: &listed.key.name,
        object: listed.object.get(),
    }
}

/// The cluster role of the name in the store, if it is there.
pub(crate) fn role_named<'a>(
    alloc: Global,
    store: &'a Store,
    name: &'a Text,
) -> Result<Option<NamedRole<'a>>, Memory>
    ensures { IfOk result (λ o. option_map labelled o ≡ role_at (plain_of store.now).objects name.now) }
{
    match store.get(&role_key(alloc, name)?) {
        Some(object) => Ok(Some(NamedRole { name, object })),
        None => Ok(None),
    }
}

/// The cluster roles of the names in the store. Other cluster roles are not read.
pub(crate) fn roles_named<'a>(
    alloc: Global,
    store: &'a Store,
    names: &'a BTreeSet<Text>,
) -> Result<Vec<NamedRole<'a>>, Memory>
    ensures { IfOk result (λ v. map labelled v.items ≡ takers_in (plain_of store.now).objects names.now.keys) }
{
    let mut roles = Vec::with_capacity(alloc, names.len())?;
    for name in names {
        if let Some(role) = role_named(alloc, store, name)? {
            roles.push(role)?;
        }
    }
    Ok(roles)
}

/// The cluster roles among some objects of a list, in its order.
fn named_roles<'a>(alloc: Global, list: &[Listed<'a>]) -> Result<Vec<NamedRole<'a>>, Memory>
    ensures { IfOk result (λ v. map labelled v.items ≡ roles_in (trees (map shown list.now))) }
{
    let mut roles = Vec::with_capacity(alloc, list.len())?;
    for listed in list {
        if is_cluster_role(listed.key) {
            roles.push(named_role(listed))?;
        }
    }
    Ok(roles)
}

/// The cluster roles of the store.
#[tactic(auto, using(crate::proofs::Read::read_roles, crate::proofs::Read::read_order))]
fn read_roles<'a>(alloc: Global, store: &'a Store) -> Result<Vec<NamedRole<'a>>, Memory>
    ensures roles { IfOk result (λ v. map labelled v.items ≡ roles_in (plain_of store.now).objects) }
    ensures ordered { IfOk result (λ v. IsInNameOrder (map labelled v.items)) }
{
    let _revision = store.revision();
    let row = cluster_roles_row(alloc)?;
    let selector = everything(alloc);
    let list = store.list(&row, "", &selector, "")?;
    named_roles(alloc, list.as_slice())
}

/// The cluster roles of the store that the selector matches.
pub(crate) fn roles_selected<'a>(
    alloc: Global,
    store: &'a Store,
    selector: &Selector,
) -> Result<Vec<NamedRole<'a>>, Memory>
    ensures { IfOk result (λ v. map labelled v.items ≡ filter (λ r. matches selector.now r.labels) (roles_in (plain_of store.now).objects)) }
{
    let row = cluster_roles_row(alloc)?;
    let list = store.list(&row, "", selector, "")?;
    named_roles(alloc, list.as_slice())
}

impl<'a> ClusterRoles<'a> {
    ghost use Rattle.std.specs.Prelude.{◌≡◌, map, IfOk};
    ghost use Rattle.kapi_store.specs.Plain.{plain_of};
    ghost use Rattle.kapi_aggregation.specs.Roles.{IsInNameOrder, roles_in};
    ghost use Rattle.kapi_aggregation.specs.Views.{labelled};
    ghost use Rattle.kapi_aggregation.specs.Lent.{roles_of};

    /// The cluster roles of the store. Other objects of the store are not read.
    pub fn read(alloc: Global, store: &'a Store) -> Result<ClusterRoles<'a>, Memory>
        ensures { IfOk result (λ r. roles_of r ≡ roles_in (plain_of store.now).objects) }
    {
        Ok(ClusterRoles {
            list: read_roles(alloc, store)?,
        })
    }

    /// The roles, borrowed.
    pub(crate) fn as_slice(&self) -> &[NamedRole<'a>]
        ensures roles { map labelled result.now ≡ roles_of self.now }
        ensures ordered { IsInNameOrder (roles_of self.now) }
    {
        self.list.as_slice()
    }
}
