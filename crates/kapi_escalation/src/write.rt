ghost use Rattle.std.specs.Prelude.{◌≡◌, ◌||◌};
ghost use Rattle.std.specs.Option.{is_some};
ghost use Rattle.kapi_escalation.specs.Writes.{is_aggregated as has_aggregation_rule, scope as scope_of, was_aggregated as was_aggregated_at};

use kapi_model::{ClusterRole, ClusterRoleBinding, Role, RoleBinding};
use kapi_policy::NamespacedName;
use kapi_text::Text;

/// The old version of an object, if there was one, and the new version.
#[derive(Drop)]
pub struct Versions<T> {
    pub old: Option<T>,
    pub new: T,
}

/// A create, update or patch of a policy object: the name that its request asks for, which is empty on create, and what
/// is written.
#[derive(Drop)]
pub struct PolicyWrite {
    pub request_name: Text,
    pub object: WrittenObject,
}

/// A policy object at its place, in both versions; of a role only the new one counts.
#[derive(Drop)]
pub enum WrittenObject {
    Role(NamespacedName, Role),
    ClusterRole(Text, Versions<ClusterRole>),
    RoleBinding(NamespacedName, Versions<RoleBinding>),
    ClusterRoleBinding(Text, Versions<ClusterRoleBinding>),
}

impl WrittenObject {
    /// The namespace in which a write of the object counts, empty where it counts cluster-wide.
    pub fn scope(&self) -> &str
        ensures { result.now ≡ scope_of self.now }
    {
        match self {
            WrittenObject::Role(place, _) => place.namespace.as_str(),
            WrittenObject::RoleBinding(place, _) => place.namespace.as_str(),
            WrittenObject::ClusterRole(_, _) => "",
            WrittenObject::ClusterRoleBinding(_, _) => "",
        }
    }

    /// Whether the object is a cluster role whose old or new version takes its rules from others.
    pub fn is_aggregated(&self) -> bool
        ensures { result ≡ has_aggregation_rule self.now }
    {
        match self {
            WrittenObject::ClusterRole(_, versions) => is_aggregated(versions),
            _ => false,
        }
    }
}

fn is_aggregated(versions: &Versions<ClusterRole>) -> bool
    ensures { result ≡ (was_aggregated_at versions.now.old || is_some versions.now.new.aggregation_rule) }
{
    was_aggregated(versions) || versions.new.aggregation_rule.is_some()
}

fn was_aggregated(versions: &Versions<ClusterRole>) -> bool
    ensures { result ≡ was_aggregated_at versions.now.old }
{
    match &versions.old {
        Some(old) => old.aggregation_rule.is_some(),
        None => false,
    }
}
