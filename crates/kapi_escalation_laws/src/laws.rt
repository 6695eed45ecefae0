//! Laws of runs, each the clause of a function that does nothing. A run leads from a settled policy, by any writes,
//! deletions and turns; the acting identities, which make the writes, are unprivileged at its start.
ghost use Rattle.std.specs.Prelude.{◌≡◌, ◌∷◌, List, [], None, Ok, Some, codes, true};
ghost use Rattle.kapi_model.specs.declared.identity.Identity.{Identity};
ghost use Rattle.kapi_rules.specs.Worked.{get_of};
ghost use Rattle.kapi_aggregation.specs.Turns.{next};
ghost use Rattle.kapi_aggregation.specs.declared.turn.Turn.{Turn};
ghost use Rattle.kapi_policy.specs.Laws.{IsInOrder};
ghost use Rattle.kapi_policy.specs.Objects.{PolicyObjects};
ghost use Rattle.kapi_escalation.specs.Checks.{checked, grant};
ghost use Rattle.kapi_escalation.specs.declared.write.PolicyWrite.{PolicyWrite};
ghost use Rattle.kapi_escalation_laws.specs.Access.{GivesNothing, IsUnprivileged, may};
ghost use Rattle.kapi_aggregation.specs.Members.{Has};
ghost use Rattle.kapi_escalation_laws.specs.States.{IsSettled, PolicyState, labelled_roles};
ghost use Rattle.kapi_escalation_laws.specs.Steps.{AreBy, IsGuarded, IsRewritten, IsTurned, PolicyStep, Runs};
ghost use Rattle.kapi_escalation_laws.specs.Within.{ActorsHoldOwn, BindingsStayWithin, RolesNeverGrow, RolesStayWithin, TurnsStayWithin};
ghost use Rattle.kapi_escalation_laws.specs.Worked.{binder, binding_of_a, bound, eve, filled, turn_of_b, unsettled};

/// Nobody gains what no actor held: whatever is allowed to an identity in a namespace, or cluster-wide, after the run
/// was allowed there at its start to that identity or to one of those acting.
pub fn nobody_gains_what_no_actor_held()
    ensures { (acting : List Identity) (start now : PolicyState) (steps : List PolicyStep)
        → IsGuarded acting start → AreBy acting steps → Runs start steps now → GivesNothing acting start.objects now.objects }
{}

/// An acting identity holds at no time more than the acting identities held at the start.
pub fn actors_hold_what_actors_held()
    ensures { (acting : List Identity) (start now : PolicyState) (steps : List PolicyStep)
        → IsGuarded acting start → AreBy acting steps → Runs start steps now → ActorsHoldOwn acting start.objects now.objects }
{}

/// The rules of a role, and of the role of a binding, are what the acting identities held at the start, or were there.
pub fn what_is_written_stays_within()
    ensures roles { (acting : List Identity) (start now : PolicyState) (steps : List PolicyStep)
        → IsGuarded acting start → AreBy acting steps → Runs start steps now → RolesStayWithin acting start.objects now.objects }
    ensures bindings { (acting : List Identity) (start now : PolicyState) (steps : List PolicyStep)
        → IsGuarded acting start → AreBy acting steps → Runs start steps now → BindingsStayWithin acting start.objects now.objects }
{}

/// From any moment of a run on, no role gets what no acting identity held at the start, even if it is deleted and made
/// again.
pub fn roles_never_grow()
    ensures { (acting : List Identity) (start now later : PolicyState) (steps more : List PolicyStep)
        → IsGuarded acting start → AreBy acting steps → AreBy acting more → Runs start steps now → Runs now more later
        → RolesNeverGrow acting start.objects now.objects later.objects }
{}

/// What a turn would add to an aggregated cluster role is what the acting identities held at the start, or in the role.
pub fn what_a_turn_writes_stays_within()
    ensures { (acting : List Identity) (start now : PolicyState) (steps : List PolicyStep)
        → IsGuarded acting start → AreBy acting steps → Runs start steps now → TurnsStayWithin acting start.objects now.objects now.labels }
{}

/// The writes of a run pass the check, and its turns are the next ones; if none is next, the policy is settled.
pub fn checks_and_turns_make_runs()
    ensures writes { (objects : PolicyObjects) (identity : Identity) (write : PolicyWrite)
        → checked objects identity write ≡ Ok tt → grant objects identity write ≡ true }
    ensures turns { (old new : PolicyState) (turn : Turn)
        → IsInOrder old.objects → next (labelled_roles old.objects old.labels) ≡ Some turn → IsRewritten old turn new → IsTurned old turn.name new }
    ensures settled { (state : PolicyState) → next (labelled_roles state.objects state.labels) ≡ None → IsSettled state }
{}

/// Runs exist: in a settled policy a user who may do something is unprivileged.
pub fn unprivileged_users_may_do_something()
    ensures guarded { IsGuarded (eve ∷ []) filled }
    ensures allowed { may filled.objects eve [] (get_of (codes "pods")) ≡ true }
{}

/// Where the policy is not settled the law fails: a turn gives a user rules that the aggregated role has not taken yet.
pub fn turns_of_unsettled_policies_give_more()
    ensures order { IsInOrder unsettled.objects }
    ensures unprivileged { (who : Identity) → Has (eve ∷ []) who → IsUnprivileged unsettled.objects who }
    ensures runs { Runs unsettled turn_of_b filled }
    ensures gains { GivesNothing (eve ∷ []) unsettled.objects filled.objects → ⊥ }
{}

/// Where an acting identity may bind the law fails too: Eve binds herself to a role with rules that Eve does not hold.
pub fn who_may_bind_gains_more()
    ensures order { IsInOrder binder.objects }
    ensures settled { IsSettled binder }
    ensures acts { AreBy (eve ∷ []) binding_of_a }
    ensures runs { Runs binder binding_of_a bound }
    ensures gains { GivesNothing (eve ∷ []) binder.objects bound.objects → ⊥ }
{}
