//! Roles with the entries of their rules prepared.
use crate::rules::CompiledRules;
use kapi_model::{AggregationRule, ClusterRole, Role};
use kapi_text::{Memory, TryCopy};
use std::alloc::Global;
use std::marker::Model;

/// A role whose entries are prepared. Contracts see the role.
#[derive(Drop)]
pub struct PreparedRole {
    rules: CompiledRules,
}

impl Model for PreparedRole {
    ghost use Rattle.kapi_model.specs.declared.role.Role.{Role};

    ghost Value = { Role };

    ghost view = { λ r. record { rules = r.rules } };
}

impl PreparedRole {
    ghost use Rattle.std.specs.Prelude.{◌≡◌, IfOk};

    /// Prepares a role.
    pub fn of(alloc: Global, role: &Role) -> Result<PreparedRole, Memory>
        ensures { IfOk result (λ r. r ≡ role.now) }
    {
        let rules = CompiledRules::new(alloc, role.rules.copy(alloc)?)?;
        Ok(PreparedRole { rules })
    }

    /// The rules of the cluster role.
    pub fn rules(&self) -> &CompiledRules
        ensures { result.now ≡ self.now.rules }
    {
        &self.rules
    }
}

/// A cluster role whose entries are prepared. Contracts see the cluster role.
#[derive(Drop)]
pub struct PreparedClusterRole {
    aggregation_rule: Option<AggregationRule>,
    rules: CompiledRules,
}

impl Model for PreparedClusterRole {
    ghost use Rattle.kapi_model.specs.declared.role.ClusterRole.{ClusterRole};

    ghost Value = { ClusterRole };

    ghost view = { λ r. record { aggregation_rule = r.aggregation_rule; rules = r.rules } };
}

impl PreparedClusterRole {
    ghost use Rattle.std.specs.Prelude.{◌≡◌, IfOk};

    /// Prepares a cluster role.
    pub fn of(alloc: Global, role: &ClusterRole) -> Result<PreparedClusterRole, Memory>
        ensures { IfOk result (λ r. r ≡ role.now) }
    {
        let aggregation_rule = role.aggregation_rule.copy(alloc)?;
        let rules = CompiledRules::new(alloc, role.rules.copy(alloc)?)?;
        Ok(PreparedClusterRole {
            aggregation_rule,
            rules,
        })
    }

    /// The rules of the cluster role.
    pub fn rules(&self) -> &CompiledRules
        ensures { result.now ≡ self.now.rules }
    {
        &self.rules
    }
}

impl TryCopy for PreparedRole {
    fn copy(&self, alloc: Global) -> Result<PreparedRole, Memory> {
        Ok(PreparedRole {
            rules: self.rules.copy(alloc)?,
        })
    }
}

impl TryCopy for PreparedClusterRole {
    fn copy(&self, alloc: Global) -> Result<PreparedClusterRole, Memory> {
        Ok(PreparedClusterRole {
            aggregation_rule: self.aggregation_rule.copy(alloc)?,
            rules: self.rules.copy(alloc)?,
        })
    }
}
