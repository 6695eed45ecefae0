//! Rules and where they count.
ghost use Rattle.std.specs.Prelude.{◌≡◌};
ghost use Rattle.kapi_access.specs.Scoped.{scoped_cmp, texts_cmp};

use kapi_model::PolicyRule;
use kapi_text::{Sequence, Text};
use std::cmp::Ordering;

/// A rule and the namespace in which it counts, empty where it counts everywhere. Keys of maps are in the order of their entries.
#[derive(Drop)]
pub struct ScopedRule {
    pub rule: PolicyRule,
    pub namespace: Text,
}

fn in_turn(a: &Sequence<Text>, b: &Sequence<Text>) -> Ordering
    ensures { result ≡ texts_cmp a.now b.now }
{
    a.as_slice().cmp(b.as_slice())
}

fn compare(a: &ScopedRule, b: &ScopedRule) -> Ordering
    ensures { result ≡ scoped_cmp a.now b.now }
{
    let names = in_turn(&a.rule.resource_names, &b.rule.resource_names);
    let urls = in_turn(&a.rule.non_resource_urls, &b.rule.non_resource_urls);
    let scopes = a.namespace.as_str().cmp(b.namespace.as_str());
    in_turn(&a.rule.verbs, &b.rule.verbs).then(in_turn(&a.rule.resources, &b.rule.resources).then(
        in_turn(&a.rule.api_groups, &b.rule.api_groups).then(names.then(urls.then(scopes))),
    ))
}

impl PartialEq for ScopedRule {
    ghost use Rattle.std.specs.Cmp.{partial_equiv_from_equiv};
    ghost use Rattle.std.specs.Ordering.{eq_by_cmp};
    ghost use Rattle.std.specs.Cmp.{eq_by_cmp_equiv};
    ghost use Rattle.kapi_access.specs.Scoped.{scoped_total};

    ghost eq = { eq_by_cmp scoped_cmp };

    ghost laws = { partial_equiv_from_equiv (eq_by_cmp_equiv scoped_total) };

    fn eq(&self, other: &ScopedRule) -> bool {
        compare(self, other).is_eq()
    }
}

impl Eq for ScopedRule {
    ghost use Rattle.std.specs.Cmp.{eq_by_cmp_equiv};
    ghost use Rattle.kapi_access.specs.Scoped.{scoped_total};

    ghost laws = { eq_by_cmp_equiv scoped_total };
}

impl PartialOrd for ScopedRule {
    ghost use Rattle.std.specs.Prelude.{Some};
    ghost use Rattle.std.specs.Cmp.{partial_order_from_total};
    ghost use Rattle.kapi_access.specs.Scoped.{scoped_total};

    ghost partial_cmp = { λ x y. Some (scoped_cmp x y) };

    ghost laws = { partial_order_from_total scoped_total };

    fn partial_cmp(&self, other: &ScopedRule) -> Option<Ordering> {
        Some(compare(self, other))
    }
}

impl Ord for ScopedRule {
    ghost use Rattle.std.specs.Prelude.{refl};
    ghost use Rattle.kapi_access.specs.Scoped.{scoped_total};

    ghost cmp = { scoped_cmp };

    ghost total = { scoped_total };

    ghost matches_partial_cmp = { λ x y. refl };

    ghost matches_eq = { λ x y. refl };

    fn cmp(&self, other: &ScopedRule) -> Ordering {
        compare(self, other)
    }
}
