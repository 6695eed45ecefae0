//! Worked rows of the definitions, as clauses that the check computes.

ghost use Rattle.std.specs.Prelude.{◌≡◌, codes, []};
ghost use Rattle.serde_json.specs.Data.{object, no_members};
ghost use Rattle.kapi_store.specs.Faults.{RevisionsUsedUp};
ghost use Rattle.kapi_store.specs.Keys.{namespace_key};
ghost use Rattle.kapi_store.specs.UidAndVersion.{uid_of};
ghost use Rattle.kapi_store.specs.Plain.{opened, creation};

/// Unique ids at some revisions, and a creation at the last one.
pub fn worked_rows()
    ensures six { uid_of 6 ≡ codes "00000000-0000-4000-8000-000000000006" }
    ensures byte { uid_of 255 ≡ codes "00000000-0000-4000-8000-0000000000ff" }
    ensures last { uid_of 281474976710655 ≡ codes "00000000-0000-4000-8000-ffffffffffff" }
    ensures used_up { creation (opened [] 281474976710655) (namespace_key (codes "default")) (object no_members) ≡ Err RevisionsUsedUp }
{}
