//! Worked values, each the clause of a function that does nothing: the check computes them.
#![tactic(auto, unfolding(crate::proofs::OnLiterals::worked_on_literals))]

ghost use Rattle.std.specs.Prelude.{◌≡◌, ◌∷◌, ◌++◌, [], codes, Err, None, Ok, Some, false};
ghost use Rattle.serde_json.specs.Written.{compact_text};
ghost use Rattle.kapi_aggregation.specs.Turns.{next};
ghost use Rattle.kapi_aggregation.specs.Unions.{union};
ghost use Rattle.kapi_answer.specs.Answer.{answer};
ghost use Rattle.kapi_core.specs.Machine.{answers, new_link, step};
ghost use Rattle.kapi_core.specs.Opening.{empty};
ghost use Rattle.kapi_core.specs.declared.event.Answer.TheVariants as told;
ghost use Rattle.kapi_core.specs.declared.event.Event.TheVariants as event;
ghost use Rattle.kapi_escalation.specs.Checks.{checked, lacks};
ghost use Rattle.kapi_escalation.specs.Laws.{role_with, write_of};
ghost use Rattle.kapi_http.specs.declared.message.StatusCode.TheVariants as status;
ghost use Rattle.kapi_model.specs.FaultKind.{fault};
ghost use Rattle.kapi_model.specs.declared.fault.FaultKind.TheVariants as cause;
ghost use Rattle.kapi_model.specs.declared.kinds.RoleKind.TheVariants as role_kind;
ghost use Rattle.kapi_model.specs.declared.row.Schema.TheVariants as schema;
ghost use Rattle.kapi_object.specs.Admission.{faults_on, object_of, wrong_kind};
ghost use Rattle.kapi_object.specs.Merge.{merged};
ghost use Rattle.kapi_policy.specs.Decided.{allowed, decided, denied, masters};
ghost use Rattle.kapi_policy.specs.declared.decision.BindingKind.TheVariants as kind;
ghost use Rattle.kapi_reply.specs.Refusals.{failure_of};
ghost use Rattle.kapi_reply.specs.declared.refusal.Refusal.TheVariants as refusal;
ghost use Rattle.kapi_rules.specs.Atoms.{resource_atom};
ghost use Rattle.kapi_rules.specs.Missing.{missing};
ghost use Rattle.kapi_rules.specs.Worked.{get_of};
ghost use Rattle.kapi_rules.specs.declared.atom.Names.TheVariants as names;
ghost use Rattle.kapi_store.specs.Faults.{Conflict, NoNamespace};
ghost use Rattle.kapi_store.specs.Keys.{namespace_key};
ghost use Rattle.kapi_store.specs.Plain.{creation, opened, replacement};
ghost use Rattle.kapi_watch.specs.Shown.{Added, Deleted, Expired};
ghost use Rattle.kapi_watch.specs.Watches.{pumped};
ghost use Rattle.kapi_examples.specs.Worked.{bob_asks, get, history, on_pods, pod, pods, policy, roles, root, seen, stored, tree, user, with_pod};

/// In the namespace `n` rule 1 of the role `r` lets Ann get pods; elsewhere she may not, nor may others, but for masters.
pub fn worked_decisions()
    ensures granted { decided policy (user (codes "ann")) (codes "n") (get_of (codes "pods"))
        ≡ allowed (record { kind = kind.RoleBinding; binding = codes "b"; role = record { kind = role_kind.Role; name = codes "r" }; rule = 1 }) }
    ensures elsewhere { decided policy (user (codes "ann")) (codes "m") (get_of (codes "pods")) ≡ denied }
    ensures other { decided policy (user (codes "bob")) (codes "n") (get_of (codes "pods")) ≡ denied }
    ensures master { decided policy root (codes "m") (get_of (codes "nodes")) ≡ masters }
{}

/// Who holds `get` on pods lacks `list` of a rule with both verbs, and may not write it; who holds all verbs lacks nothing.
pub fn worked_permissions()
    ensures lacks_one { missing (on_pods (codes "get" ∷ []) ∷ []) (on_pods (codes "get" ∷ codes "list" ∷ []) ∷ []) ≡ resource_atom (codes "list") [] (codes "pods") names.All ∷ [] }
    ensures lacks_none { missing (on_pods (codes "*" ∷ []) ∷ []) (on_pods (codes "get" ∷ codes "list" ∷ []) ∷ []) ≡ [] }
    ensures held { checked policy (user (codes "ann")) (write_of [] (role_with (record { namespace = codes "n"; name = codes "s" }) (on_pods (codes "get" ∷ []) ∷ []))) ≡ Ok tt }
    ensures raised { checked policy (user (codes "ann")) (write_of [] (role_with (record { namespace = codes "n"; name = codes "s" }) (on_pods (codes "get" ∷ codes "list" ∷ []) ∷ [])))
        ≡ Err (lacks (resource_atom (codes "list") [] (codes "pods") names.All ∷ [])) }
{}

/// The role `c` takes the rules of `a`, which its selector matches, not those of `b` nor its own, and is written next.
pub fn worked_unions()
    ensures taken { union roles (codes "c") ≡ on_pods (codes "get" ∷ []) ∷ [] }
    ensures plain { union roles (codes "a") ≡ [] }
    ensures turn { next roles ≡ Some (record { name = codes "c"; rules = on_pods (codes "get" ∷ []) ∷ [] }) }
{}

/// Which body is no object, what is kept of one, what is wrong with a role, and what a merge patch leaves.
pub fn worked_bodies()
    ensures kind { object_of pods (codes "{\"kind\":\"Node\"}") ≡ Err wrong_kind }
    ensures kept { object_of pods (codes "{\"spec\":{},\"metadata\":{\"uid\":\"u\",\"name\":\"p\"}}")
        ≡ Ok (tree (codes "{\"apiVersion\":\"v1\",\"kind\":\"Pod\",\"metadata\":{\"name\":\"p\"},\"spec\":{}}")) }
    ensures faults { faults_on schema.Role (tree (codes "{\"metadata\":{\"labels\":7},\"rules\":[{\"verbs\":[\"get\"],\"resources\":[\"pods\"]}]}"))
        ≡ fault (codes "metadata.labels") cause.WrongType ∷ fault (codes "rules[0].apiGroups") cause.Required ∷ [] }
    ensures patch { compact_text (merged (tree (codes "{\"a\":1,\"b\":{\"x\":2,\"y\":3}}")) (tree (codes "{\"a\":null,\"b\":{\"x\":[]},\"c\":4}")))
        ≡ codes "{\"b\":{\"x\":[],\"y\":3},\"c\":4}" }
{}

/// A creation needs its namespace; a replacement with an old version is refused, and one by the same object is no change.
pub fn worked_writes()
    ensures created { creation (opened (pods ∷ []) 5) (namespace_key (codes "n")) (tree (codes "{}"))
        ≡ Ok (record { revision = 6; key = namespace_key (codes "n"); old = None; new = Some (tree (codes "{\"metadata\":{\"resourceVersion\":\"6\",\"uid\":\"00000000-0000-4000-8000-000000000006\"}}")) } ∷ []) }
    ensures nowhere { creation (opened (pods ∷ []) 5) (pod (codes "n")) (tree (codes "{}")) ≡ Err NoNamespace }
    ensures outdated { replacement with_pod (pod (codes "n")) (tree (codes "{\"metadata\":{\"resourceVersion\":\"5\"}}")) ≡ Err (Conflict (codes "6")) }
    ensures same { replacement with_pod (pod (codes "n")) (tree (codes "{}")) ≡ Ok [] }
{}

/// The bytes that answer a get of a pod: the stored object, or what is missing where the caller may not.
pub fn worked_answers()
    ensures found { (answer policy with_pod (user (codes "ann")) (Ok (get (codes "/api/v1/namespaces/n/pods/p")))).reply.bytes
        ≡ codes "HTTP/1.1 200 OK\r\nContent-Type: application/json\r\nContent-Length: 46\r\n\r\n{\"metadata\":{\"resourceVersion\":\"6\",\"uid\":\"u\"}}" }
    ensures forbidden { (answer policy with_pod (user (codes "bob")) (Ok (get (codes "/api/v1/namespaces/n/pods/p")))).reply.bytes
        ≡ codes "HTTP/1.1 403 Forbidden\r\nContent-Type: application/json\r\nContent-Length: 273\r\n\r\n"
        ++ codes "{\"apiVersion\":\"v1\",\"code\":403,\"details\":{\"causes\":[{\"message\":\"[\\\"get\\\",\\\"\\\",\\\"pods\\\",\\\"\\\",\\\"p\\\"]\",\"reason\":\"MissingPermission\"}],"
        ++ codes "\"kind\":\"pods\",\"name\":\"p\"},\"kind\":\"Status\",\"message\":\"bob may not do this in namespace n\",\"metadata\":{},\"reason\":\"Forbidden\",\"status\":\"Failure\"}" }
{}

/// What two refusals say: the code, the reason for programs and the message.
pub fn worked_refusals()
    ensures conflict { failure_of bob_asks (codes "p") (refusal.Conflict (codes "6"))
        ≡ record { code = status.Conflict; reason = codes "Conflict"; message = codes "pods p is at resourceVersion 6"; causes = []; allow = [] } }
    ensures early { failure_of bob_asks [] (refusal.NotYetReached (record { asked = 9; current = 6 }))
        ≡ record { code = status.GatewayTimeout; reason = codes "Timeout"; message = codes "resourceVersion 9 is above the current 6"; causes = []; allow = [] } }
{}

/// A watch of the namespace `n` shows the creation of a pod, its removal at revision 8, then nothing; too far behind, it ends.
pub fn worked_events()
    ensures first { pumped history (record with_pod { revision = 8 }) (seen 0) ≡ Some (Added stored) }
    ensures second { pumped history (record with_pod { revision = 8 }) (seen 1)
        ≡ Some (Deleted (tree (codes "{\"metadata\":{\"resourceVersion\":\"8\",\"uid\":\"u\"}}"))) }
    ensures none { pumped history (record with_pod { revision = 8 }) (seen 2) ≡ None }
    ensures behind { pumped history (record with_pod { revision = 1030 }) (seen 0) ≡ Some Expired }
{}

/// Connections are numbered from 0 on, and a closed one is gone; a request that was fed is answered once.
pub fn worked_steps()
    ensures opens { step (empty [] 5) (event.Open root) ≡ (told.Opened (record { 0 = 0 }), record (empty [] 5) { next_id = 1; links = (0, new_link root) ∷ [] }) }
    ensures closes { step (record (empty [] 5) { next_id = 1; links = (0, new_link root) ∷ [] }) (event.Close (record { 0 = 0 })) ≡ (told.Done, record (empty [] 5) { next_id = 1 }) }
    ensures serves { answers (empty [] 5) (event.Open root ∷ event.Feed (record { 0 = 0 }) (codes "GET /livez HTTP/1.1\r\nHost: a\r\n\r\n") ∷ event.Serve (record { 0 = 0 }) ∷ event.Serve (record { 0 = 0 }) ∷ [])
        ≡ told.Opened (record { 0 = 0 }) ∷ told.Done ∷ told.Sent (record { bytes = codes "HTTP/1.1 200 OK\r\nContent-Type: text/plain\r\nContent-Length: 2\r\n\r\nok"; close = false; policy_changes = [] })
        ∷ told.Nothing ∷ [] }
{}
