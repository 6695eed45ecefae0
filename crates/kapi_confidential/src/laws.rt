//! Laws of what answers show. Each is the clause of a function that does nothing.
ghost use Rattle.std.specs.Prelude.{◌≡◌, ℕ, Bool, true, List, Some, None, Result, Ok, codes};
ghost use Rattle.std.specs.Map.{lookup};
ghost use Rattle.kapi_answer.specs.Impersonation.{made_as};
ghost use Rattle.kapi_answer.specs.Watch.{PlainWatching};
ghost use Rattle.kapi_confidential.specs.Alike.{AnswersAlike, DecidesAlike, ReadsOnly, SeesAlike, WatchesAlike, next_event};
ghost use Rattle.kapi_confidential.specs.Worked.{eve, secret, with_secret, without_secret};
ghost use Rattle.kapi_confidential.specs.Writes.{AsksOfNoOther, WritesAlike};
ghost use Rattle.kapi_escalation.specs.Reading.{policy_objects};
ghost use Rattle.kapi_http.specs.declared.message.HttpFault.{HttpFault};
ghost use Rattle.kapi_http.specs.declared.message.HttpRequest.{HttpRequest};
ghost use Rattle.kapi_model.specs.declared.identity.Identity.{Identity};
ghost use Rattle.kapi_policy.specs.Decided.{decided};
ghost use Rattle.kapi_policy.specs.Laws.{is_allowed};
ghost use Rattle.kapi_policy.specs.Objects.{PolicyObjects};
ghost use Rattle.kapi_rules.specs.Worked.{get_of};
ghost use Rattle.kapi_store.specs.Keys.{is_key};
ghost use Rattle.kapi_store.specs.Plain.{Plain, PlainChange};

/// Two states answer a request alike, byte for byte, if they allow the caller the same, its effective identity sees them
/// alike, and it only reads: a get, a list, the start of a watch, a review of the caller's own rights, a health request,
/// or a request refused before its action counts.
pub fn reads_show_only_what_may_be_read()
    ensures { (objects other : PolicyObjects) (s t : Plain) (caller : Identity) (item : Result HttpRequest HttpFault)
        → DecidesAlike caller objects other
        → ((request : HttpRequest) (who : Identity) → item ≡ Ok request → made_as objects caller request ≡ Ok who → SeesAlike who objects other s t)
        → ReadsOnly objects s caller item
        → AnswersAlike caller item objects other s t }
{}

/// Two states answer a request alike, byte for byte and with the same changes, if they allow the caller the same, its effective
/// identity sees them alike and its writes cannot tell them apart, and it is no review of the rights of others.
pub fn writes_show_only_what_may_be_written()
    ensures { (objects other : PolicyObjects) (s t : Plain) (caller : Identity) (item : Result HttpRequest HttpFault)
        → DecidesAlike caller objects other
        → ((request : HttpRequest) (who : Identity) → item ≡ Ok request → made_as objects caller request ≡ Ok who → SeesAlike who objects other s t × WritesAlike who objects other s t)
        → AsksOfNoOther objects s caller item
        → AnswersAlike caller item objects other s t }
{}

/// The next event of a running watch depends only on the revisions, on what its identity is allowed, and on the changes of the
/// objects that it ranges over.
pub fn events_show_only_what_is_watched()
    ensures { (w : PlainWatching) (objects other : PolicyObjects) (s t : Plain) (history changes : List PlainChange) (rechecks : Bool)
        → WatchesAlike w objects other s t history changes → next_event rechecks objects s history w ≡ next_event rechecks other t changes w }
{}

/// Each identity sees a state like itself.
pub fn a_state_is_seen_like_itself()
    ensures { (who : Identity) (objects : PolicyObjects) (s : Plain) → SeesAlike who objects objects s s }
{}

/// A user who may get pods, and nothing else, cannot tell a state with a Secret from one without it.
pub fn a_secret_is_not_seen()
    ensures differ { (lookup (is_key secret.0) with_secret.objects ≡ Some secret.1) × (lookup (is_key secret.0) without_secret.objects ≡ None) }
    ensures gets { (namespace : List ℕ) → is_allowed (decided (policy_objects with_secret.objects) eve namespace (get_of (codes "pods"))) ≡ true }
    ensures seen { SeesAlike eve (policy_objects with_secret.objects) (policy_objects without_secret.objects) with_secret without_secret }
    ensures written { WritesAlike eve (policy_objects with_secret.objects) (policy_objects without_secret.objects) with_secret without_secret }
{}
