//! The objects that every policy begins with, unless a file has others of their kinds and names.
ghost use Rattle.std.specs.Prelude.{◌≡◌, ◌++◌, IfOk, OnOk, map};
ghost use Rattle.kapi_manifests.specs.Files.{data_of};
ghost use Rattle.kapi_manifests.specs.DefaultObjects as default_objects;
ghost use Rattle.kapi_manifests.specs.DefaultObjects.{model_of_object, defaults_among, default_if};
ghost use Rattle.std.specs.List.{list_any};
ghost use Rattle.serde_json.specs.Errors.{IsMemory};

use crate::defaults::default_roles;
use crate::fault::Origin;
use crate::kinds::{metadata_text, text_at};
use crate::sorted::Manifest;
use kapi_text::Memory;
use serde_json::{Error, Value};
use std::alloc::{AllocError, Global};

/// An object that stands beneath those of files: its kind, its name, and its text.
#[derive(Clone, Copy)]
pub struct DefaultObject {
    pub kind: &'static str,
    pub name: &'static str,
    pub text: &'static str,
}

/// The roles and bindings that stand beneath those of files: those that every policy begins with, and Kubernetes' own
/// user-facing roles if they are asked for.
pub fn all_default_objects(alloc: Global, defaults: bool) -> Result<Vec<DefaultObject>, Memory>
    ensures { IfOk result (λ v. map model_of_object v.items ≡ default_objects.all_default_objects defaults) }
{
    let mut objects = Vec::new(alloc);
    objects.extend_from_slice(&default_role_objects())?;
    if defaults {
        objects.extend_from_slice(&default_roles())?;
    }
    Ok(objects)
}

/// The namespace `default`.
#[tactic(auto, unfolding(crate::specs::DefaultObjects::default_namespace_objects))]
pub fn default_namespace_objects() -> [DefaultObject; 1]
    ensures { map default_objects.model_of_object result ≡ default_objects.default_namespace_objects }
{
    [DefaultObject {
        kind: "Namespace",
        name: "default",
        text: "{\"apiVersion\":\"v1\",\"kind\":\"Namespace\",\"metadata\":{\"name\":\"default\"}}",
    }]
}

/// The role that allows everything, the role by which users may review their own access, and a binding of each
/// (Kubernetes, 'Using RBAC Authorization').
#[tactic(auto, unfolding(crate::specs::DefaultObjects::default_role_objects))]
fn default_role_objects() -> [DefaultObject; 4]
    ensures { map default_objects.model_of_object result ≡ default_objects.default_role_objects }
{
    [
        DefaultObject {
            kind: "ClusterRole",
            name: "cluster-admin",
            text: "{\"apiVersion\":\"rbac.authorization.k8s.io/v1\",\"kind\":\"ClusterRole\",\"metadata\":{\"name\":\"cluster-admin\"},\"rules\":[{\"apiGroups\":[\"*\"],\"resources\":[\"*\"],\"verbs\":[\"*\"]},{\"nonResourceURLs\":[\"*\"],\"verbs\":[\"*\"]}]}",
        },
        DefaultObject {
            kind: "ClusterRole",
            name: "system:basic-user",
            text: "{\"apiVersion\":\"rbac.authorization.k8s.io/v1\",\"kind\":\"ClusterRole\",\"metadata\":{\"name\":\"system:basic-user\"},\"rules\":[{\"apiGroups\":[\"authorization.k8s.io\"],\"resources\":[\"selfsubjectaccessreviews\",\"selfsubjectrulesreviews\"],\"verbs\":[\"create\"]}]}",
        },
        DefaultObject {
            kind: "ClusterRoleBinding",
            name: "cluster-admin",
            text: "{\"apiVersion\":\"rbac.authorization.k8s.io/v1\",\"kind\":\"ClusterRoleBinding\",\"metadata\":{\"name\":\"cluster-admin\"},\"roleRef\":{\"apiGroup\":\"rbac.authorization.k8s.io\",\"kind\":\"ClusterRole\",\"name\":\"cluster-admin\"},\"subjects\":[{\"apiGroup\":\"rbac.authorization.k8s.io\",\"kind\":\"Group\",\"name\":\"system:masters\"}]}",
        },
        DefaultObject {
            kind: "ClusterRoleBinding",
            name: "system:basic-user",
            text: "{\"apiVersion\":\"rbac.authorization.k8s.io/v1\",\"kind\":\"ClusterRoleBinding\",\"metadata\":{\"name\":\"system:basic-user\"},\"roleRef\":{\"apiGroup\":\"rbac.authorization.k8s.io\",\"kind\":\"ClusterRole\",\"name\":\"system:basic-user\"},\"subjects\":[{\"apiGroup\":\"rbac.authorization.k8s.io\",\"kind\":\"Group\",\"name\":\"system:authenticated\"}]}",
        },
    ]
}

/// The default objects whose kind and name none of the files' objects has.
pub fn defaults_beside(
    alloc: Global,
    begun: &[DefaultObject],
    objects: &[Manifest],
) -> Result<Vec<Manifest>, Memory>
    ensures { IfOk result (λ v. map data_of v.items ≡ defaults_among (map data_of objects.now) (map model_of_object begun.now)) }
{
    let mut found = Vec::new(alloc);
    for one in begun {
        push_default(alloc, &mut found, *one, objects)?;
    }
    Ok(found)
}

fn push_default(
    alloc: Global,
    found: &mut Vec<Manifest>,
    one: DefaultObject,
    objects: &[Manifest],
) -> Result<(), Memory>
    ensures { OnOk result (map data_of found.new.items ≡ map data_of found.old.items ++ default_if (map data_of objects.now) (model_of_object one)) }
{
    if is_among(one, objects) {
        return Ok(());
    }
    push_text(alloc, found, one.text)
}

/// Whether one of the objects is of that kind and name.
fn is_among(one: DefaultObject, objects: &[Manifest]) -> bool
    ensures { result ≡ list_any (default_objects.is_same (model_of_object one)) (map data_of objects.now) }
{
    for object in objects {
        if is_same(one, object) {
            return true;
        }
    }
    false
}

/// Whether an object is of that kind and name.
fn is_same(one: DefaultObject, manifest: &Manifest) -> bool
    ensures { result ≡ default_objects.is_same (model_of_object one) (data_of manifest.now) }
{
    text_at(&manifest.object, "kind") == one.kind
        && metadata_text(&manifest.object, "name") == one.name
}

/// Keeps the object that a text is.
#[tactic(auto, unfolding(crate::specs::DefaultObjects::object_read))]
fn push_text(alloc: Global, found: &mut Vec<Manifest>, text: &str) -> Result<(), Memory>
    ensures { OnOk result (map data_of found.new.items ≡ map data_of found.old.items ++ default_objects.object_read text.now) }
{
    match Value::from_str(alloc, text) {
        Ok(object) => {
            let origin = Origin { file: 0, line: 0 };
            found.push(Manifest { origin, object })?;
            Ok(())
        }
        Err(error) => memory_only(&error),
    }
}

/// An error only if memory is refused.
fn memory_only(error: &Error) -> Result<(), Memory>
    ensures { OnOk result (¬ IsMemory error.now) }
{
    if error.is_memory() {
        return Err(AllocError);
    }
    Ok(())
}
