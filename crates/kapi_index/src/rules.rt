//! Rules, and beside each its prepared entries.
ghost use Rattle.std.specs.Prelude.{◌≡◌, IfOk, map};
ghost use Rattle.std.specs.List.{position};
ghost use Rattle.kapi_index.specs.Compiled.{compiled, compiled_allows};
ghost use Rattle.kapi_index.specs.Points.{point_of};

use crate::compiled_rule::{CompiledRule, compile, compiled_rule_allows};
use crate::prepared_point::PreparedPoint;
use kapi_model::PolicyRule;
use kapi_text::{Memory, Sequence, TryCopy};
use std::alloc::Global;
use std::marker::Model;

/// Rules with their entries prepared. Contracts see the rules alone.
#[derive(Drop)]
pub struct CompiledRules {
    rules: Sequence<PolicyRule>,
    prepared: Sequence<CompiledRule>,
}

impl Model for CompiledRules {
    ghost use Rattle.std.specs.Prelude.{◌≡◌, List, map};
    ghost use Rattle.kapi_model.specs.declared.policy_rule.PolicyRule.{PolicyRule};
    ghost use Rattle.kapi_index.specs.Compiled.{compiled};

    ghost Value = { List PolicyRule };

    ghost view = { λ r. r.rules };

    ghost invariant = { λ r. r.prepared ≡ map compiled r.rules };
}

fn compile_all(alloc: Global, rules: &[PolicyRule]) -> Result<Sequence<CompiledRule>, Memory>
    ensures { IfOk result (λ cs. cs ≡ map compiled rules.now) }
{
    let mut list = Vec::new(alloc);
    for rule in rules {
        list.push(compile(alloc, rule)?)?;
    }
    Ok(Sequence::new(list))
}

fn first_of(rules: &[CompiledRule], asked: &PreparedPoint<'_>) -> Option<usize>
    ensures { result ≡ position (λ rule. compiled_allows rule (point_of asked.now)) rules.now }
{
    rules
        .iter()
        .position(|rule| compiled_rule_allows(rule, asked))
}

impl CompiledRules {
    ghost use Rattle.std.specs.Prelude.{◌≡◌, IfOk};
    ghost use Rattle.std.specs.List.{position};
    ghost use Rattle.kapi_rules.specs.Rules.{allows};
    ghost use Rattle.kapi_index.specs.Points.{point_of};

    /// Prepares the entries of rules.
    pub fn new(alloc: Global, rules: Sequence<PolicyRule>) -> Result<CompiledRules, Memory>
        ensures { IfOk result (λ r. r ≡ rules) }
    {
        let prepared = compile_all(alloc, rules.as_slice())?;
        Ok(CompiledRules { rules, prepared })
    }

    /// The rules as they are written.
    pub fn as_slice(&self) -> &[PolicyRule]
        ensures { result.now ≡ self.now }
    {
        self.rules.as_slice()
    }

    /// The index of the first rule that allows what is asked. Allocates nothing.
    pub fn first_allowing(&self, asked: &PreparedPoint<'_>) -> Option<usize>
        ensures { result ≡ position (λ rule. allows rule (point_of asked.now)) self.now }
    {
        first_of(self.prepared.as_slice(), asked)
    }
}

impl TryCopy for CompiledRules {
    fn copy(&self, alloc: Global) -> Result<CompiledRules, Memory> {
        CompiledRules::new(alloc, self.rules.copy(alloc)?)
    }
}
