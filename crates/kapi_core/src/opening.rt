ghost use Rattle.std.specs.Prelude.{◌≡◌, ◌≤◌, IfOk, OnOk, map as map_of};
ghost use Rattle.std.specs.List.{fold};
ghost use Rattle.kapi_object.specs.Object.{tree_of};
ghost use Rattle.kapi_policy.specs.Objects.{no_objects};
ghost use Rattle.kapi_store.specs.Plain.{creation};
ghost use Rattle.kapi_core.specs.Machine.{Machine};
ghost use Rattle.kapi_core.specs.Limits.{last_first};
ghost use Rattle.kapi_core.specs.Opening as opening_of;
ghost use Rattle.kapi_core.specs.Opening.{cluster_key, opening, with_opening, written_if};
ghost use Rattle.kapi_core.specs.Private.Openings.{Holds, opening_data};
ghost use Rattle.kapi_core.specs.Table.{row_of};

use crate::resource::{Resource, cluster_role_bindings, cluster_roles, namespaces};
use crate::write::make_write;
use kapi_aggregation::Tracker;
use kapi_model::ResourceRow;
use kapi_object::{Object, ObjectError, read_object};
use kapi_policy::Policy;
use kapi_store::{Key, Store, StoreError};
use kapi_text::{Memory, Sequence, Text};
use std::alloc::{AllocError, Global};

/// The largest revision at which a machine may begin, so that the opening objects still find revisions.
pub const LAST_FIRST: u64 = 281_474_976_710_650;

/// An object that every machine begins with.
#[derive(Clone, Copy)]
pub struct OpeningObject {
    resource: Resource,
    name: &'static str,
    body: &'static [u8],
}

/// A store with the opening objects at the five revisions after `first`, and the roles and bindings among them in an
/// empty policy; the cluster roles are noted.
#[tactic(auto, unfolding(crate::specs::Opening::opening))]
pub fn open_objects<P: Policy>(
    alloc: Global,
    table: Sequence<ResourceRow>,
    policy: &mut P,
    tracker: &mut Tracker,
    first: u64,
) -> Result<Store, Memory>
    requires first { first ≤ last_first }
    requires empty { P.content policy.old ≡ no_objects }
    ensures { IfOk result (λ s. Holds s (P.content policy.new) tracker.new (opening table first)) }
{
    let mut store = Store::new(alloc, table, first)?;
    create_all(alloc, policy, tracker, &mut store, &opening_objects())?;
    Ok(store)
}

/// The five opening objects, in their order: the namespace `default`; the role that allows everything; the role by
/// which users with a name may review their own access; and the bindings of the two (Kubernetes, 'Using RBAC
/// Authorization').
#[tactic(auto, unfolding(crate::specs::Opening::opening_objects))]
fn opening_objects() -> [OpeningObject; 5]
    ensures { map_of opening_data result ≡ opening_of.opening_objects }
{
    [
        OpeningObject {
            resource: namespaces(),
            name: "default",
            body: b"{\"metadata\":{\"name\":\"default\"}}",
        },
        OpeningObject {
            resource: cluster_roles(),
            name: "cluster-admin",
            body: b"{\"metadata\":{\"name\":\"cluster-admin\"},\"rules\":[{\"apiGroups\":[\"*\"],\"resources\":[\"*\"],\"verbs\":[\"*\"]},{\"nonResourceURLs\":[\"*\"],\"verbs\":[\"*\"]}]}",
        },
        OpeningObject {
            resource: cluster_roles(),
            name: "system:basic-user",
            body: b"{\"metadata\":{\"name\":\"system:basic-user\"},\"rules\":[{\"apiGroups\":[\"authorization.k8s.io\"],\"resources\":[\"selfsubjectaccessreviews\",\"selfsubjectrulesreviews\"],\"verbs\":[\"create\"]}]}",
        },
        OpeningObject {
            resource: cluster_role_bindings(),
            name: "cluster-admin",
            body: b"{\"metadata\":{\"name\":\"cluster-admin\"},\"roleRef\":{\"apiGroup\":\"rbac.authorization.k8s.io\",\"kind\":\"ClusterRole\",\"name\":\"cluster-admin\"},\"subjects\":[{\"apiGroup\":\"rbac.authorization.k8s.io\",\"kind\":\"Group\",\"name\":\"system:masters\"}]}",
        },
        OpeningObject {
            resource: cluster_role_bindings(),
            name: "system:basic-user",
            body: b"{\"metadata\":{\"name\":\"system:basic-user\"},\"roleRef\":{\"apiGroup\":\"rbac.authorization.k8s.io\",\"kind\":\"ClusterRole\",\"name\":\"system:basic-user\"},\"subjects\":[{\"apiGroup\":\"rbac.authorization.k8s.io\",\"kind\":\"Group\",\"name\":\"system:authenticated\"}]}",
        },
    ]
}

/// Creates opening objects, one after the other.
fn create_all<P: Policy>(
    alloc: Global,
    policy: &mut P,
    tracker: &mut Tracker,
    store: &mut Store,
    objects: &[OpeningObject],
) -> Result<(), Memory>
    ensures { OnOk result ((m : Machine) → Holds store.old (P.content policy.old) tracker.old m → Holds store.new (P.content policy.new) tracker.new (fold with_opening m (map_of opening_data objects.now))) }
{
    for object in objects {
        create_opening(alloc, policy, tracker, store, object)?;
    }
    Ok(())
}

/// Creates an opening object as any other object is created.
#[tactic(auto, unfolding(crate::specs::Opening::with_opening))]
fn create_opening<P: Policy>(
    alloc: Global,
    policy: &mut P,
    tracker: &mut Tracker,
    store: &mut Store,
    opening: &OpeningObject,
) -> Result<(), Memory>
    ensures { OnOk result ((m : Machine) → Holds store.old (P.content policy.old) tracker.old m → Holds store.new (P.content policy.new) tracker.new (with_opening m (opening_data opening.now))) }
{
    let row = opening.resource.row(alloc)?;
    let key = opening_key(alloc, opening)?;
    match read_object(alloc, &row, opening.body) {
        Ok(object) => create_if(alloc, policy, tracker, store, key, object),
        Err(ObjectError::Memory) => Err(AllocError),
        Err(_other) => Ok(()),
    }
}

/// Creates an object, if its creation is not refused.
fn create_if<P: Policy>(
    alloc: Global,
    policy: &mut P,
    tracker: &mut Tracker,
    store: &mut Store,
    key: Key,
    object: Object,
) -> Result<(), Memory>
    ensures { OnOk result ((m : Machine) → Holds store.old (P.content policy.old) tracker.old m → Holds store.new (P.content policy.new) tracker.new (written_if m (creation m.store key (tree_of object)))) }
{
    match store.create(key, object) {
        Ok(ready) => {
            drop(make_write(alloc, policy, tracker, store, Some(ready))?);
            Ok(())
        }
        Err(StoreError::Memory) => Err(AllocError),
        Err(_refused) => Ok(()),
    }
}

fn opening_key(alloc: Global, opening: &OpeningObject) -> Result<Key, Memory>
    ensures { IfOk result (λ k. k ≡ cluster_key (row_of opening.now.resource) opening.now.name.now) }
{
    Ok(Key {
        group: Text::copy_of(alloc, opening.resource.group)?,
        resource: Text::copy_of(alloc, opening.resource.plural)?,
        namespace: Text::copy_of(alloc, "")?,
        name: Text::copy_of(alloc, opening.name)?,
    })
}
