//! Laws of the steps, each the clause of a function that does nothing. They hold of the objects of every policy.
ghost use Rattle.std.specs.Prelude.{◌≡◌, ◌↔◌, ℕ, List, true};
ghost use Rattle.kapi_policy.specs.Objects.{PolicyObjects};
ghost use Rattle.kapi_paths.specs.Asked.{MayAsk, has_step, is_subject};
ghost use Rattle.kapi_paths.specs.Rights.{Row};
ghost use Rattle.kapi_paths.specs.Steps.{identity_of};
ghost use Rattle.kapi_paths.specs.declared.node.Node.{Node as Who};
ghost use Rattle.kapi_paths.specs.declared.steps.Known.{Known};

/// The policy allows a user, group or account alone a request of a right in a namespace (cluster-wide if empty) exactly
/// if a step leads it to everything, or to a role there or cluster-wide with a rule that has the right.
pub fn a_step_is_there_where_a_request_is_allowed()
    ensures { (objects : PolicyObjects) (known : Known) (rows : List Row) (x : Who) (place : List ℕ) (row : Row) → is_subject x.kind ≡ true
        → (MayAsk objects (identity_of x.kind x.place x.name) place row ↔ (has_step objects known rows x place row ≡ true)) }
{}
