ghost use Rattle.std.specs.Prelude.{◌≡◌, IfOk, IsOk, OnErr, OnOk, option_copied};
ghost use Rattle.kapi_policy.specs.Decided.{decided, held as held_by, rules_of};
ghost use Rattle.kapi_policy.specs.Laws.{AreSameRules};
ghost use Rattle.kapi_policy.specs.Objects.{PolicyObjects, applied};
ghost use Rattle.kapi_policy.specs.Views.{decision_of};
ghost use Rattle.kapi_policy.specs.declared.change.PolicyKey.{PolicyKey};

use crate::change::PolicyChange;
use crate::decision::Decision;
use kapi_model::{Identity, PolicyRule, RoleRef};
use kapi_rules::Point;
use kapi_text::Memory;

/// Roles and bindings, and what they allow (Kubernetes, 'Using RBAC Authorization'). Contracts see a policy as its
/// objects alone. If a namespace is asked for, the empty one asks cluster-wide.
pub trait Policy {
    /// The roles and bindings.
    ghost content: { Self → PolicyObjects };

    /// Puts or deletes one object. A failed allocation changes nothing; a deletion allocates nothing and always
    /// succeeds.
    fn apply(&mut self, change: &PolicyChange) -> Result<(), Memory>
        ensures done { OnOk result (content self.new ≡ applied change.now (content self.old)) }
        ensures kept { OnErr result (content self.new ≡ content self.old) }
        ensures deletes { (key : PolicyKey) → change.now ≡ PolicyChange.Delete key → IsOk result };

    /// Whether the identity may do this in the namespace, and the first rule that allows it. Allocates nothing.
    fn decide<'a>(&'a self, identity: &Identity, namespace: &str, point: &Point) -> Decision<'a>
        ensures { decision_of result ≡ decided (content self.now) identity.now namespace.now point.now };

    /// The rules that the bindings grant the identity in the namespace, in the order in which they are checked.
    fn held(&self, identity: &Identity, namespace: &str) -> Result<Vec<PolicyRule>, Memory>
        ensures { IfOk result (λ v. v.items ≡ held_by (content self.now) identity.now namespace.now) };

    /// The rules that the bindings grant the identity in the namespace, in no promised order. If many bindings have the
    /// same role, its rules need not come for each.
    fn held_once(&self, identity: &Identity, namespace: &str) -> Result<Vec<PolicyRule>, Memory>
        ensures { IfOk result (λ v. AreSameRules v.items (held_by (content self.now) identity.now namespace.now)) };

    /// The rules of the role that a binding in the namespace refers to, if it exists. Allocates nothing.
    fn role_rules<'a>(&'a self, role: &RoleRef, namespace: &str) -> Option<&'a [PolicyRule]>
        ensures { option_copied result ≡ rules_of (content self.now) role.now namespace.now };
}
