//! Laws of what is suggested, each the clause of a function that does nothing. That there are few uses says that the suggestions' numbers
//! fit 64 bits.
ghost use Rattle.std.specs.Prelude.{◌≡◌, ◌||◌, ℕ, List, [], Ok, true};
ghost use Rattle.std.specs.List.{list_any};
ghost use Rattle.kapi_model.specs.Identities.{is_master};
ghost use Rattle.kapi_model.specs.declared.identity.Identity.{Identity};
ghost use Rattle.kapi_rules.specs.Points.{HasPlainResource};
ghost use Rattle.kapi_rules.specs.declared.point.Point.{Point};
ghost use Rattle.kapi_lines.specs.Lines.{NumberedLine};
ghost use Rattle.kapi_policy.specs.Objects.{PolicyObjects};
ghost use Rattle.kapi_escalation_laws.specs.Access.{may};
ghost use Rattle.kapi_reviews.specs.declared.question.Question.{Question};
ghost use Rattle.kapi_suggest.specs.Events.{uses_in};
ghost use Rattle.kapi_suggest.specs.Needs.{allows_by, suggested};
ghost use Rattle.kapi_suggest.specs.Policies.{AreFew, suggestion};
ghost use Rattle.kapi_suggest.specs.Uses.{Allows, ArePlain, HasItsGroups, ListsNoEmptyName, given_by};

/// What is suggested allows what the uses give, and nothing else: the rules, and the policy of their roles and bindings.
pub fn what_is_suggested_is_what_was_used()
    ensures rules { (uses : List Question) (identity : Identity) (namespace : List ℕ) (p : Point) → HasPlainResource p
        → (is_master identity || list_any (allows_by identity namespace p) (suggested uses)) ≡ given_by uses identity namespace p }
    ensures policy { (uses : List Question) (identity : Identity) (namespace : List ℕ) (p : Point) → AreFew uses → HasPlainResource p
        → may (suggestion uses) identity namespace p ≡ given_by uses identity namespace p }
{}

/// What is suggested allows every use.
pub fn every_use_is_allowed()
    ensures { (uses : List Question) → AreFew uses → ArePlain uses → Allows (suggestion uses) uses }
{}

/// Every policy that allows all uses allows what is suggested: those of an identity that is in each group in which its user used
/// something, if no rule lists the empty name.
pub fn less_would_not_do()
    ensures given { (uses : List Question) (other : PolicyObjects) (identity : Identity) (namespace : List ℕ) (p : Point)
        → ArePlain uses → Allows other uses → ListsNoEmptyName other → HasItsGroups uses identity → HasPlainResource p
        → given_by uses identity namespace p ≡ true → may other identity namespace p ≡ true }
    ensures suggested { (uses : List Question) (other : PolicyObjects) (identity : Identity) (namespace : List ℕ) (p : Point)
        → AreFew uses → ArePlain uses → Allows other uses → ListsNoEmptyName other → HasItsGroups uses identity → HasPlainResource p
        → may (suggestion uses) identity namespace p ≡ true → may other identity namespace p ≡ true }
{}

/// No resource has a slash in the uses that an audit log shows.
pub fn uses_of_a_log_are_plain()
    ensures { (lines : List NumberedLine) (uses : List Question) → uses_in [] lines ≡ Ok uses → ArePlain uses }
{}
