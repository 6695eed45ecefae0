//! Laws of decisions, each the clause of a function that does nothing. They hold of the objects of every policy.
ghost use Rattle.std.specs.Prelude.{◌≡◌, ℕ, ◌++◌, ◌||◌, List, []};
ghost use Rattle.std.specs.List.{list_any};
ghost use Rattle.kapi_model.specs.declared.identity.Identity.{Identity};
ghost use Rattle.kapi_model.specs.declared.policy_rule.PolicyRule.{PolicyRule};
ghost use Rattle.kapi_rules.specs.Rules.{allows as rule_allows};
ghost use Rattle.kapi_rules.specs.declared.point.Point.{Point};
ghost use Rattle.kapi_policy.specs.Decided.{Granted, allowed, decided, held as held_by};
ghost use Rattle.kapi_model.specs.Identities.{is_master};
ghost use Rattle.kapi_policy.specs.Laws.{IsInOrder, IsWith, IsWithout, NamesFirst, cluster_wide, is_allowed};
ghost use Rattle.kapi_policy.specs.Objects.{PolicyObjects, applied, no_objects};
ghost use Rattle.kapi_policy.specs.declared.change.PolicyChange.{PolicyChange};
ghost use Rattle.kapi_policy.specs.declared.change.PolicyKey.{PolicyKey};
ghost use Rattle.kapi_policy.specs.declared.change.PolicyPut.{PolicyPut};

/// A request is allowed exactly if the identity is of the group `system:masters` or holds a rule there that allows it.
pub fn held_rules_are_what_allows()
    ensures { (objects : PolicyObjects) (identity : Identity) (namespace : List ℕ) (point : Point)
        → is_allowed (decided objects identity namespace point)
        ≡ (is_master identity || list_any (λ rule. rule_allows rule point) (held_by objects identity namespace)) }
{}

/// What a decision names is the first rule that allows the request, in the order of the held rules.
pub fn the_first_rule_is_named()
    ensures { (objects : PolicyObjects) (identity : Identity) (namespace : List ℕ) (point : Point) (g : Granted)
        → decided objects identity namespace point ≡ allowed g → NamesFirst objects identity namespace point g }
{}

/// The rules that are held cluster-wide are held in every namespace, before the rules of the namespace alone.
pub fn rules_held_cluster_wide_come_first()
    ensures { (objects : PolicyObjects) (identity : Identity) (namespace : List ℕ)
        → (more : List PolicyRule) × (held_by objects identity namespace ≡ held_by objects identity [] ++ more) }
{}

/// Objects in namespaces have no part in what is held and allowed cluster-wide.
pub fn namespaces_do_not_count_cluster_wide()
    ensures held { (objects : PolicyObjects) (identity : Identity) → held_by (cluster_wide objects) identity [] ≡ held_by objects identity [] }
    ensures decided { (objects : PolicyObjects) (identity : Identity) (point : Point)
        → decided (cluster_wide objects) identity [] point ≡ decided objects identity [] point }
{}

/// The objects stay in the order of their names, each name once: no objects are, and each change keeps the order.
pub fn changes_keep_the_order()
    ensures none { IsInOrder no_objects }
    ensures kept { (change : PolicyChange) (objects : PolicyObjects) → IsInOrder objects → IsInOrder (applied change objects) }
{}

/// After a put its object is at its place, after a deletion none is there, and all other objects are as before.
pub fn changes_are_of_one_object()
    ensures puts { (put : PolicyPut) (objects : PolicyObjects) → IsWith put objects (applied (PolicyChange.Put put) objects) }
    ensures deletes { (key : PolicyKey) (objects : PolicyObjects) → IsInOrder objects → IsWithout key objects (applied (PolicyChange.Delete key) objects) }
{}
