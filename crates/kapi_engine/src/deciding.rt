//! Decisions, and what somebody lacks.
ghost use Rattle.std.specs.Prelude.{◌≡◌, IfOk, map, option_map};
ghost use Rattle.kapi_policy.specs.Decided.{decided};
ghost use Rattle.kapi_policy.specs.Views.{decision_of};
ghost use Rattle.kapi_engine.specs.Decisions.{decided_on, lacking as lacking_of, missing_of};

use crate::loaded_policy::LoadedPolicy;
use kapi_missing::missing;
use kapi_model::{Identity, PolicyRule, RoleRef};
use kapi_policy::{Decision, Policy};
use kapi_reviews::Question;
use kapi_rules::{Atom, Point};
use kapi_text::Memory;
use std::alloc::Global;

impl LoadedPolicy {
    /// Whether the identity may do this in the namespace (cluster-wide if empty), and the first rule that allows it.
    /// Allocates nothing.
    pub fn decide<'a>(&'a self, identity: &Identity, namespace: &str, point: &Point) -> Decision<'a>
        ensures { decision_of result ≡ decided self.now.policy identity.now namespace.now point.now }
    {
        self.policy.decide(identity, namespace, point)
    }

    /// The decision of each question, in their order.
    pub fn decide_each<'a>(
        &'a self,
        alloc: Global,
        questions: &[Question],
    ) -> Result<Vec<Decision<'a>>, Memory>
        ensures { IfOk result (λ v. map decision_of v.items ≡ map (decided_on self.now.policy) questions.now) }
    {
        let mut decisions = Vec::with_capacity(alloc, questions.len())?;
        for question in questions {
            let namespace = question.namespace.as_str();
            decisions.push(self.decide(&question.identity, namespace, &question.point))?;
        }
        Ok(decisions)
    }

    /// The permissions of a role that the identity does not have in the namespace (cluster-wide if empty); none if a
    /// binding there would find no such role.
    #[tactic(auto, unfolding(crate::specs::Decisions::missing_of))]
    pub fn missing(
        &self,
        alloc: Global,
        identity: &Identity,
        namespace: &str,
        role: &RoleRef,
    ) -> Result<Option<Vec<Atom>>, Memory>
        ensures { IfOk result (λ o. option_map (λ v. v.items) o ≡ missing_of self.now.policy identity.now namespace.now role.now) }
    {
        match self.policy.role_rules(role, namespace) {
            Some(rules) => Ok(Some(self.lacking(alloc, identity, namespace, rules)?)),
            None => Ok(None),
        }
    }

    /// The permissions of rules that the identity does not have in the namespace.
    #[tactic(auto, unfolding(crate::specs::Decisions::lacking))]
    fn lacking(
        &self,
        alloc: Global,
        identity: &Identity,
        namespace: &str,
        rules: &[PolicyRule],
    ) -> Result<Vec<Atom>, Memory>
        ensures { IfOk result (λ v. v.items ≡ lacking_of self.now.policy identity.now namespace.now rules.now) }
    {
        if identity.is_master() {
            return Ok(Vec::new(alloc));
        }
        let held = self.policy.held(identity, namespace)?;
        missing(alloc, held.as_slice(), rules)
    }
}
