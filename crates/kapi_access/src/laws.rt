//! Laws of the answers, each the clause of a function that does nothing. They hold of the objects of every policy.
ghost use Rattle.std.specs.Prelude.{◌≡◌, ◌||◌, ℕ, List, [], None, Some, true, false};
ghost use Rattle.std.specs.List.{enumerate_from, list_any};
ghost use Rattle.kapi_model.specs.declared.policy_rule.PolicyRule.{PolicyRule};
ghost use Rattle.kapi_model.specs.Identities.{is_master};
ghost use Rattle.kapi_model.specs.declared.identity.Identity.{Identity};
ghost use Rattle.kapi_rules.specs.Points.{HasPlainResource};
ghost use Rattle.kapi_rules.specs.declared.point.Point.{Point};
ghost use Rattle.kapi_aggregation.specs.Members.{Has};
ghost use Rattle.kapi_policy.specs.All.{all_bindings};
ghost use Rattle.kapi_policy.specs.Decided.{Binding, held};
ghost use Rattle.kapi_policy.specs.Laws.{IsInOrder};
ghost use Rattle.kapi_policy.specs.Objects.{PolicyObjects};
ghost use Rattle.kapi_escalation_laws.specs.Access.{GivesNothing, IsUnprivileged, may};
ghost use Rattle.kapi_escalation_laws.specs.States.{IsSettled, PolicyState};
ghost use Rattle.kapi_escalation_laws.specs.Steps.{AreBy, PolicyStep, Runs};
ghost use Rattle.kapi_access.specs.declared.dangling.Covered.{Covered};
ghost use Rattle.kapi_access.specs.declared.grantee.Grantee.{Grantee};
ghost use Rattle.kapi_access.specs.Dangling.{IsCovered, covered, stands_for};
ghost use Rattle.kapi_access.specs.Answers.{grave_first};
ghost use Rattle.kapi_access.specs.Gained.{Gained, GivesNothingTo, IsGained, IsReported, IsReportedByRule, by_rule, gained, gained_from, new_atoms};
ghost use Rattle.kapi_access.specs.Given.{allows_at, lines_within, what, what_lines};
ghost use Rattle.kapi_access.specs.Grantees.{alone, grantees, role_of, unbound_user};
ghost use Rattle.kapi_access.specs.Risks.{IsWithoutRisk, risks};
ghost use Rattle.kapi_access.specs.Usual.{IsMeant};
ghost use Rattle.kapi_access.specs.declared.identities.Identities.{Identities};
ghost use Rattle.kapi_access.specs.Who.{IsEachOnce, IsRequest, is_named, is_named_in, who_anywhere, who_may};
ghost use Rattle.kapi_access.specs.declared.first_ways.Listed.TheVariants as Listed;

/// A request is allowed to an identity exactly if it is in `system:masters` or some line of those who may names it.
pub fn who_may_is_who_is_listed()
    ensures { (objects : PolicyObjects) (identity : Identity) (namespace : List ℕ) (p : Point)
        → may objects identity namespace p ≡ (is_master identity || is_named (who_may objects namespace p) identity) }
{}

/// A request is allowed to an identity in a namespace exactly if it is in `system:masters` or some line of those who may anywhere
/// names it whose binding counts there; cluster-wide, which is the empty namespace, if some line with a cluster-wide binding does.
pub fn who_may_is_who_is_listed_anywhere()
    ensures { (objects : PolicyObjects) (identity : Identity) (namespace : List ℕ) (p : Point)
        → may objects identity namespace p ≡ (is_master identity || is_named_in namespace (who_anywhere objects p) identity) }
{}

/// An identity may do nothing risky in a namespace exactly if it is not in `system:masters` and no line of the risks names it whose
/// binding counts there; cluster-wide, which is the empty namespace, if no line with a cluster-wide binding does. Who is
/// unprivileged, and so has the verb `impersonate` on no resource at all, no line names.
pub fn risks_are_who_is_listed()
    ensures unlisted { (objects : PolicyObjects) (identity : Identity) (namespace : List ℕ)
        → IsWithoutRisk objects identity namespace → (is_master identity || is_named_in namespace (risks objects) identity) ≡ false }
    ensures riskless { (objects : PolicyObjects) (identity : Identity) (namespace : List ℕ)
        → (is_master identity || is_named_in namespace (risks objects) identity) ≡ false → IsWithoutRisk objects identity namespace }
    ensures unprivileged { (objects : PolicyObjects) (identity : Identity)
        → IsUnprivileged objects identity → (is_master identity || is_named (risks objects) identity) ≡ false }
{}

/// No user and no group is listed twice among those who may, nor twice in the same scope among those who may anywhere and the risks.
pub fn each_is_listed_once()
    ensures who { (objects : PolicyObjects) (namespace : List ℕ) (p : Point) → IsEachOnce Listed.Once (who_may objects namespace p) }
    ensures anywhere { (objects : PolicyObjects) (p : Point) → IsEachOnce Listed.InEachScope (who_anywhere objects p) }
    ensures risks { (objects : PolicyObjects) → IsEachOnce Listed.InEachScope (risks objects) }
{}

/// If the policy is settled and everybody who writes is unprivileged, nobody gains what no actor held. It says nothing of a
/// writer who is not listed among the risks and has the verb `impersonate` on something that impersonation never asks for, as
/// `configmaps`: the steps of a policy let such a writer act as anybody, although no server does.
pub fn nobody_gains_where_the_unprivileged_write()
    ensures { (acting : List Identity) (start now : PolicyState) (steps : List PolicyStep) → IsInOrder start.objects → IsSettled start
        → ((who : Identity) → Has acting who → IsUnprivileged start.objects who)
        → AreBy acting steps → Runs start steps now → GivesNothing acting start.objects now.objects }
{}

/// Each request that the policy after allows an identity that is meant, and the policy before did not, a line covers: it names the
/// identity, its binding counts there, and its atom allows it.
pub fn every_gain_is_reported()
    ensures { (who : Identities) (before after : PolicyObjects) (identity : Identity) (namespace : List ℕ) (p : Point) → IsMeant who identity → HasPlainResource p → IsRequest namespace p
        → may after identity namespace p ≡ true → may before identity namespace p ≡ false → IsReported (gained who before after) identity namespace p }
{}

/// Each line is a gain: somebody of those meant, whom it names, may make a request of its atom, and could not before.
pub fn each_line_is_a_gain()
    ensures { (who : Identities) (before after : PolicyObjects) (line : Gained) → Has (gained who before after) line → IsGained who before after line }
{}

/// Gains by rules cover the requests that gains by atoms cover, and no others: a line of the one covers a request exactly if a line
/// of the other does.
pub fn rules_cover_what_atoms_cover()
    ensures rules { (gains : List Gained) (identity : Identity) (namespace : List ℕ) (p : Point)
        → IsReported gains identity namespace p → IsReportedByRule (grave_first (by_rule gains)) identity namespace p }
    ensures atoms { (gains : List Gained) (identity : Identity) (namespace : List ℕ) (p : Point)
        → IsReportedByRule (grave_first (by_rule gains)) identity namespace p → IsReported gains identity namespace p }
{}

/// Nothing is listed exactly if no identity that is meant gains.
pub fn nothing_is_listed_where_nobody_gains()
    ensures nothing { (who : Identities) (before after : PolicyObjects) → gained who before after ≡ [] → GivesNothingTo who before after }
    ensures nobody { (who : Identities) (before after : PolicyObjects) → GivesNothingTo who before after → gained who before after ≡ [] }
{}

/// What stood before is no gain: a rule of a binding has nothing new for its grantees, and a binding whose role has its
/// rules as before has no line. Nor has one under a new name that gives the same rules to the same subjects in the same
/// namespace.
pub fn what_stood_stays_out()
    ensures rules { (who : Identities) (before : PolicyObjects) (b : Binding) (to : Grantee) (rule : PolicyRule)
        → Has (all_bindings before) b → Has (grantees b) to → Has (role_of before b) rule
        → new_atoms b.namespace (held before (alone who (unbound_user before) to) b.namespace) rule ≡ [] }
    ensures bindings { (who : Identities) (before after : PolicyObjects) (b : Binding)
        → Has (all_bindings before) b → role_of after b ≡ role_of before b → gained_from who before after b ≡ [] }
    ensures alike { (who : Identities) (before after : PolicyObjects) (s b : Binding) → Has (all_bindings before) s
        → s.namespace ≡ b.namespace → s.subjects ≡ b.subjects → role_of before s ≡ role_of after b → gained_from who before after b ≡ [] }
{}

/// A request is allowed to an identity exactly if it is in `system:masters` or some rule that it has allows it, if the rule
/// counts: rule by rule, in all lines, and in those that count in the namespace.
pub fn what_one_has_is_what_one_may()
    ensures rules { (objects : PolicyObjects) (identity : Identity) (namespace : List ℕ) (p : Point) → IsRequest namespace p
        → may objects identity namespace p ≡ (is_master identity || list_any (λ g. allows_at namespace p g.at) (what objects identity)) }
    ensures lines { (objects : PolicyObjects) (identity : Identity) (namespace : List ℕ) (p : Point) → IsRequest namespace p
        → may objects identity namespace p ≡ (is_master identity || list_any (λ l. allows_at namespace p l.0) (lines_within None (what_lines objects identity))) }
    ensures within { (objects : PolicyObjects) (identity : Identity) (namespace : List ℕ) (p : Point) → IsRequest namespace p
        → may objects identity namespace p ≡ (is_master identity || list_any (λ l. allows_at namespace p l.0) (lines_within (Some namespace) (what_lines objects identity))) }
{}

/// A rule is listed as covered only if the other allows all that it does. Each rule is listed if an earlier one covers
/// it, or a later one that it does not cover itself.
pub fn covered_rules_can_go()
    ensures covered { (rules : List PolicyRule) (c : Covered) → Has (covered rules) c → IsCovered rules c }
    ensures listed { (rules : List PolicyRule) (i j : ℕ) (rule other : PolicyRule) → Has (enumerate_from 0 rules) (i, rule) → Has (enumerate_from 0 rules) (j, other)
        → stands_for j other i rule ≡ true → (by : ℕ) × Has (covered rules) (record { rule = i; by = by }) }
{}
