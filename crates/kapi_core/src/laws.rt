//! Laws of the model of the machine, each the clause of a function that does nothing.
ghost use Rattle.std.specs.Prelude.{◌≡◌, ◌≤◌, ℕ, List, true, false};
ghost use Rattle.kapi_model.specs.declared.row.ResourceRow.{ResourceRow};
ghost use Rattle.kapi_model.specs.Identities.{is_master};
ghost use Rattle.kapi_model.specs.declared.identity.Identity.{Identity};
ghost use Rattle.kapi_aggregation.specs.Roles.{roles_in};
ghost use Rattle.kapi_aggregation.specs.Unions.{IsSettled};
ghost use Rattle.kapi_policy.specs.Objects.{PolicyObjects};
ghost use Rattle.kapi_escalation_laws.specs.Access.{IsUnprivileged};
ghost use Rattle.kapi_escalation_laws.specs.States.{Labels};
ghost use Rattle.kapi_escalation_laws.specs.Within.{ActorsHoldOwn, StaysWithin};
ghost use Rattle.kapi_aggregation.specs.Members.{Has};
ghost use Rattle.kapi_core.specs.Gains.{IsServed, NobodyGains, NobodyGainsDuring, RolesNeverGrowBetween, StaysHeld, StaysHeldDuring, acting_in};
ghost use Rattle.kapi_core.specs.Histories.{DueIsListed, EventsGoOn, FirstIsListed, FirstShownIsListed, ListedThen, LoadsGoOn, ServedIsAHistory, ShownIsListed, TurnsReplace};
ghost use Rattle.kapi_core.specs.Machine.{Machine, after, answers, policy_of};
ghost use Rattle.kapi_core.specs.Opening.{opening};
ghost use Rattle.kapi_core.specs.OpeningPolicy.{opening_policy};
ghost use Rattle.kapi_core.specs.Pumps.{EventsAreARun, FirstSentIsListed, SentIsListed};
ghost use Rattle.kapi_core.specs.Rechecks.{ShowsWhatIsDue, StaysSwitched};
ghost use Rattle.kapi_core.specs.Running.{Running};
ghost use Rattle.kapi_core.specs.Refines.{Refines};
ghost use Rattle.kapi_core.specs.Table.{fits};
ghost use Rattle.kapi_core.specs.Telling.{policy_told};
ghost use Rattle.kapi_core.specs.Limits.{last_first};
ghost use Rattle.kapi_core.specs.declared.event.Event.{Event};

/// Whatever events were made before, nobody gains by those that follow: since the opening, and on every machine that a running one
/// refines, whatever was loaded into it.
pub fn nobody_gains_between_events()
    ensures opening { (table : List ResourceRow) (first : ℕ) (before events : List Event) →
        let m : Machine = after (opening table first) before in
        NobodyGains (roles_in m.store.objects) (acting_in m events) (policy_of m) (policy_of (after m events)) }
    ensures running { (core : Running) (m : Machine) (events : List Event) → Refines core m → NobodyGainsDuring m events }
{}

/// From settled roles, if all who act are unprivileged: what roles have after events, what turns would add to
/// aggregated cluster roles, and what bindings give, is within what those who act held before the events, or was there.
/// It holds since the opening, and on every machine that a running one refines. So those who act hold nothing more.
pub fn what_is_stored_stays_within()
    ensures opening { (table : List ResourceRow) (first : ℕ) (before events : List Event) →
        let m : Machine = after (opening table first) before in StaysHeld (acting_in m events) m (after m events) }
    ensures running { (core : Running) (m : Machine) (events : List Event) → Refines core m → StaysHeldDuring m events }
    ensures actors { (acting : List Identity) (start now : PolicyObjects) (labels : Labels) → StaysWithin acting start now labels → ActorsHoldOwn acting start now }
{}

/// No role gets what no acting identity held at the start, on any machine that a running one refines: even a role that
/// had it, and lost it in the meantime, does not get it again.
pub fn roles_never_grow()
    ensures { (core : Running) (m : Machine) (front back : List Event) → Refines core m → RolesNeverGrowBetween m front back }
{}

/// Every machine begins with the opening policy, whose cluster roles take rules from no others, and in which all but
/// the members of `system:masters` are unprivileged.
pub fn the_opening_is_settled()
    ensures policy { (table : List ResourceRow) (first : ℕ) → fits table ≡ true → first ≤ last_first → policy_of (opening table first) ≡ opening_policy }
    ensures settled { (table : List ResourceRow) (first : ℕ) → fits table ≡ true → first ≤ last_first → IsSettled (roles_in (opening table first).store.objects) }
    ensures unprivileged { (who : Identity) → is_master who ≡ false → IsUnprivileged opening_policy who }
{}

/// An identity that acts in a list of events is on a connection served by one of them: open before, or opened by one.
#[tactic(auto, using(crate::proofs::Acting::acts_served))]
pub fn who_acts_is_served()
    ensures { (m : Machine) (events : List Event) (who : Identity) → Has (acting_in m events) who → IsServed m events who }
{}

/// The answers to events report what became of the policy: a reader that makes the reported changes, in their order,
/// has the policy of the machine.
pub fn answers_tell_what_changed_in_the_policy()
    ensures { (core : Running) (m : Machine) (events : List Event) → Refines core m → policy_of (after m events) ≡ policy_told (answers m events) (policy_of m) }
{}

/// All the changes ever of a machine are a history, from its first revision on: whatever it began with, loaded, and
/// whatever events it made. A machine whose changes are a history keeps that over events and loads. A turn changes what
/// a replacement makes.
pub fn the_changes_of_a_machine_are_a_history()
    ensures served { ServedIsAHistory }
    ensures events { EventsGoOn }
    ensures loads { LoadsGoOn }
    ensures turns { TurnsReplace }
{}

/// What a watch of a machine from a revision on shows, on top of the list at that revision, is what the machine lists
/// now, for the objects the watch selects. This holds of all that is due to it, and of what it has shown while the
/// window holds, once nothing is due any more. A watch that shows the objects first makes the same list on top of
/// nothing. The list at a revision is what the machine listed when that was its current revision.
pub fn what_a_watch_of_the_machine_shows_makes_its_list()
    ensures due { DueIsListed }
    ensures shown { ShownIsListed }
    ensures first { FirstIsListed }
    ensures first_shown { FirstShownIsListed }
    ensures at { ListedThen }
{}

/// Events over which a connection shows a watch are a run of the watch, in which the window holds, and what is sent on
/// the connection is what the watch shows. What a client was sent of a watch from a revision on, on top of the list at
/// that revision, is what the machine lists now, once nothing is due to the client any more; what the client was sent
/// of a watch that shows the objects first is the same list.
pub fn what_is_sent_of_a_watch_makes_its_list()
    ensures run { EventsAreARun }
    ensures sent { SentIsListed }
    ensures first { FirstSentIsListed }
{}

/// No event turns the switch by which the rights of watches are rechecked. If it is off a watch shows what is due to
/// it, or that it cannot go on, and nothing else.
pub fn the_switch_of_watches_stays()
    ensures stays { StaysSwitched }
    ensures off { ShowsWhatIsDue }
{}
