//! Laws of the policy in the stored objects, each the clause of a function that does nothing.
ghost use Rattle.std.specs.Prelude.{◌≡◌, ◌∷◌, [], List, Ok, Some};
ghost use Rattle.serde_json.specs.Data.{Data};
ghost use Rattle.kapi_model.specs.declared.identity.Identity.{Identity};
ghost use Rattle.kapi_store.specs.Changes.{placed_all};
ghost use Rattle.kapi_store.specs.Plain.{Plain, PlainChange, trees_left_by, written};
ghost use Rattle.kapi_store.specs.declared.key.Key.{Key};
ghost use Rattle.kapi_escalation.specs.Reading.{policy_objects};
ghost use Rattle.kapi_aggregation.specs.Rewriting.{rewriting};
ghost use Rattle.kapi_aggregation.specs.Roles.{roles_in};
ghost use Rattle.kapi_aggregation.specs.Unions.{IsSettled};
ghost use Rattle.kapi_aggregation.specs.Turns.{next};
ghost use Rattle.kapi_aggregation.specs.declared.turn.Turn.{Turn};
ghost use Rattle.kapi_escalation.specs.Granted.{AreGranted};
ghost use Rattle.kapi_escalation_laws.specs.Access.{ActsAs, GivesNothing, IsUnprivileged};
ghost use Rattle.kapi_aggregation.specs.Members.{Has};
ghost use Rattle.kapi_escalation_laws.specs.States.{labelled_roles};
ghost use Rattle.kapi_escalation_laws.specs.Runs.{ObjectsReach};
ghost use Rattle.kapi_escalation_laws.specs.StoredStates.{AreInOrder, labels_at};

/// Changes granted to an identity make a run of the policy, by the identity itself or one that acts as it: from the
/// policy of the objects before the changes to the policy of the objects after them.
#[tactic(auto, using(crate::proofs::StoredWrites::granted_reach))]
pub fn granted_changes_are_a_run()
    ensures { (who other : Identity) (changes : List PlainChange) (os : List (Key × Data)) → AreInOrder os → ActsAs (policy_objects os) who other
        → AreGranted (policy_objects os) other changes → ObjectsReach (who ∷ []) os (placed_all (trees_left_by changes) os) }
{}

/// The changes of the next turn make a run of one turn, whichever identities act.
#[tactic(auto, using(crate::proofs::StoredTurns::turn_runs))]
pub fn the_next_turn_is_a_run()
    ensures { (acting : List Identity) (turn : Turn) (s : Plain) (changes : List PlainChange) → AreInOrder s.objects → next (roles_in s.objects) ≡ Some turn
        → rewriting turn s ≡ Ok changes → ObjectsReach acting s.objects (written changes s).objects }
{}

/// The cluster roles of the policy, with their labels, are the cluster roles among the objects.
#[tactic(auto, using(crate::proofs::StoredRoles::labelled_are))]
pub fn the_cluster_roles_are_those_stored()
    ensures { (os : List (Key × Data)) → AreInOrder os → labelled_roles (policy_objects os) (labels_at os) ≡ roles_in os }
{}

/// From objects whose aggregated cluster roles have their unions, a run of unprivileged identities gives no identity
/// what neither it nor one of those acting was allowed.
pub fn nobody_gains_by_a_run()
    ensures { (acting : List Identity) (os now : List (Key × Data)) → AreInOrder os → IsSettled (roles_in os)
        → ((who : Identity) → Has acting who → IsUnprivileged (policy_objects os) who) → ObjectsReach acting os now
        → GivesNothing acting (policy_objects os) (policy_objects now) }
{}
