//! Which identities write rules without holding them.
ghost use Rattle.std.specs.Prelude.{◌≡◌, IfOk};
ghost use Rattle.kapi_escalation.specs.Exempt.{binding as binding_of, escalating as escalating_of, exemption as exemption_of, is_exempt as is_exempt_by, plural as plural_of, role_point as role_point_of};

use crate::write::{PolicyWrite, WrittenObject};
use kapi_model::{Identity, RBAC_GROUP, RoleKind, RoleRef};
use kapi_policy::Policy;
use kapi_rules::{Point, ResourcePoint};
use kapi_text::{Memory, Text};
use std::alloc::Global;

/// Whether the identity may write without holding the rules: it may escalate the requested roles, or bind the role to
/// which the binding refers. Members of `system:masters` may do both.
pub fn is_exempt<P: Policy>(
    alloc: Global,
    policy: &P,
    identity: &Identity,
    write: &PolicyWrite,
) -> Result<bool, Memory>
    ensures { IfOk result (λ b. b ≡ is_exempt_by (P.content policy.now) identity.now write.now) }
{
    let point = exemption(alloc, write.request_name.as_str(), &write.object)?;
    let decision = policy.decide(identity, write.object.scope(), &point);
    Ok(decision.is_allowed())
}

fn exemption(alloc: Global, request_name: &str, object: &WrittenObject) -> Result<Point, Memory>
    ensures { IfOk result (λ p. p ≡ exemption_of request_name.now object.now) }
{
    match object {
        WrittenObject::Role(_, _) => escalating(alloc, RoleKind::Role, request_name),
        WrittenObject::ClusterRole(_, _) => escalating(alloc, RoleKind::ClusterRole, request_name),
        WrittenObject::RoleBinding(_, versions) => binding(alloc, &versions.new.role_ref),
        WrittenObject::ClusterRoleBinding(_, versions) => binding(alloc, &versions.new.role_ref),
    }
}

fn escalating(alloc: Global, kind: RoleKind, name: &str) -> Result<Point, Memory>
    ensures { IfOk result (λ p. p ≡ escalating_of kind name.now) }
{
    role_point(alloc, "escalate", kind, name)
}

fn binding(alloc: Global, role: &RoleRef) -> Result<Point, Memory>
    ensures { IfOk result (λ p. p ≡ binding_of role.now) }
{
    role_point(alloc, "bind", role.kind, role.name.as_str())
}

fn role_point(alloc: Global, verb: &str, kind: RoleKind, name: &str) -> Result<Point, Memory>
    ensures { IfOk result (λ p. p ≡ role_point_of verb.now kind name.now) }
{
    Ok(Point::Resource(ResourcePoint {
        verb: Text::copy_of(alloc, verb)?,
        group: Text::copy_of(alloc, RBAC_GROUP)?,
        resource: Text::copy_of(alloc, plural(kind))?,
        subresource: Text::copy_of(alloc, "")?,
        name: Text::copy_of(alloc, name)?,
    }))
}

/// The resource of the roles of a kind.
pub fn plural(kind: RoleKind) -> &'static str
    ensures { result.now ≡ plural_of kind }
{
    match kind {
        RoleKind::Role => "roles",
        RoleKind::ClusterRole => "clusterroles",
    }
}
