//! Laws of the policy of the stored objects. Each is the clause of a function that does nothing.
ghost use Rattle.std.specs.Prelude.{◌≡◌, ℕ, List, [], Some, Ok, IfOk, codes};
ghost use Rattle.std.specs.List.Sorted.{IsStrictlySortedBy};
ghost use Rattle.std.specs.Map.{keys_of, lookup};
ghost use Rattle.serde_json.specs.Data.{Data, object, put, Members};
ghost use Rattle.kapi_model.specs.declared.row.ResourceRow.{ResourceRow};
ghost use Rattle.kapi_model.specs.declared.row.Schema.TheVariants as schema;
ghost use Rattle.kapi_object.specs.Object.{stamped_tree};
ghost use Rattle.kapi_object.specs.Tree.{with_text, without_member};
ghost use Rattle.kapi_object.specs.Admission.{faults_on, kept_tree};
ghost use Rattle.kapi_rbac_types.specs.Trees.{read_as, role_of, cluster_role_of, role_binding_of, cluster_role_binding_of};
ghost use Rattle.kapi_policy.specs.Laws.{IsInOrder};
ghost use Rattle.kapi_store.specs.Changes.{placed_all};
ghost use Rattle.kapi_store.specs.Keys.{key_cmp, is_key};
ghost use Rattle.kapi_store.specs.Plain.{Plain, PlainChange, creation, removal, replacement, trees_left_by, written};
ghost use Rattle.kapi_store.specs.declared.key.Key.{Key};
ghost use Rattle.kapi_escalation.specs.Admitted.{AreSound, IsObjectOf, IsSoundAt, schema_of};
ghost use Rattle.kapi_escalation.specs.Kind.{policy_kind};
ghost use Rattle.kapi_escalation.specs.declared.kind.PolicyKind.{PolicyKind};
ghost use Rattle.kapi_escalation.specs.declared.kind.PolicyKind.TheVariants as kind;
ghost use Rattle.kapi_policy.specs.Steps.{after_changes};
ghost use Rattle.kapi_escalation.specs.Reading.{policy_changes, policy_objects};

/// The policy of the objects after a write is their policy before it, with the changes of that write.
#[tactic(auto, using(crate::proofs::Writes::policy_after))]
pub fn a_write_is_its_policy_changes()
    ensures { (cs : List PlainChange) (os : List (Key × Data)) → IsStrictlySortedBy key_cmp (keys_of os)
        → policy_objects (placed_all (trees_left_by cs) os) ≡ after_changes (policy_changes cs) (policy_objects os) }
{}

/// The policy that objects are is in the order of its names.
#[tactic(auto, using(crate::proofs::Writes::policy_in_order))]
pub fn the_policy_is_in_order()
    ensures { (os : List (Key × Data)) → IsStrictlySortedBy key_cmp (keys_of os) → IsInOrder (policy_objects os) }
{}

/// What is kept of a body without faults is an object of its resource type: of its kind and version, without faults.
pub fn what_is_admitted_is_of_its_row()
    ensures { (row : ResourceRow) (body : Data) → faults_on row.schema body ≡ [] → IsObjectOf row (kept_tree row body) }
{}

/// An object stays one of its resource type with a unique id and a version, in a namespace, with any status or none.
pub fn an_object_stays_of_its_row()
    ensures stamped { (row : ResourceRow) (uid version : List ℕ) (tree : Data) → IsObjectOf row tree → IsObjectOf row (stamped_tree uid version tree) }
    ensures in_namespace { (row : ResourceRow) (namespace : List ℕ) (tree : Data) → IsObjectOf row tree
        → IsObjectOf row (with_text (codes "namespace") namespace tree) }
    ensures with_status { (row : ResourceRow) (status : Data) (ms : Members) → IsObjectOf row (object ms)
        → IsObjectOf row (object (put (codes "status") status ms)) }
    ensures without_status { (row : ResourceRow) (tree : Data) → IsObjectOf row tree → IsObjectOf row (without_member (codes "status") tree) }
{}

/// An object of a resource type that is written at the place of its kind of role or binding has no faults there.
#[tactic(auto, using(crate::proofs::Sound::object_sound))]
pub fn an_object_is_sound_at_its_place()
    ensures { (row : ResourceRow) (of : PolicyKind) (tree : Data) → row.schema ≡ schema_of of → IsObjectOf row tree → IsSoundAt (Some of) tree }
{}

/// No write of the store leaves a role or binding with faults, if none had any and what is written has none.
#[tactic(auto, using(crate::proofs::Sound::creation_sound, crate::proofs::Sound::replacement_sound, crate::proofs::Sound::removal_sound))]
pub fn writes_leave_roles_and_bindings_sound()
    ensures creation { (s : Plain) (k : Key) (tree : Data) → AreSound s.objects → IsSoundAt (policy_kind k) tree
        → IfOk (creation s k tree) (λ cs. AreSound (written cs s).objects) }
    ensures replacement { (s : Plain) (k : Key) (tree : Data) → AreSound s.objects → IsSoundAt (policy_kind k) tree
        → IfOk (replacement s k tree) (λ cs. AreSound (written cs s).objects) }
    ensures removal { (s : Plain) (ks : List Key) → AreSound s.objects → IfOk (removal s ks) (λ cs. AreSound (written cs s).objects) }
{}

/// A role or binding that is stored so is read as one: no fault is found.
pub fn a_stored_role_or_binding_is_read()
    ensures role { (os : List (Key × Data)) (k : Key) (tree : Data) → AreSound os → lookup (is_key k) os ≡ Some tree
        → policy_kind k ≡ Some kind.Role → read_as schema.Role role_of tree ≡ Ok (role_of tree) }
    ensures cluster_role { (os : List (Key × Data)) (k : Key) (tree : Data) → AreSound os → lookup (is_key k) os ≡ Some tree
        → policy_kind k ≡ Some kind.ClusterRole → read_as schema.ClusterRole cluster_role_of tree ≡ Ok (cluster_role_of tree) }
    ensures role_binding { (os : List (Key × Data)) (k : Key) (tree : Data) → AreSound os → lookup (is_key k) os ≡ Some tree
        → policy_kind k ≡ Some kind.RoleBinding → read_as schema.RoleBinding role_binding_of tree ≡ Ok (role_binding_of tree) }
    ensures cluster_role_binding { (os : List (Key × Data)) (k : Key) (tree : Data) → AreSound os → lookup (is_key k) os ≡ Some tree
        → policy_kind k ≡ Some kind.ClusterRoleBinding → read_as schema.ClusterRoleBinding cluster_role_binding_of tree ≡ Ok (cluster_role_binding_of tree) }
{}
