//! An object with the stamps of a write.

use crate::stored::StoredObject;
use crate::uid_and_version::{uid, version};
use kapi_object::Object;
use kapi_text::Memory;
use std::alloc::Global;

/// An object as a write leaves it, as a tree and as it is kept.
#[derive(Drop)]
pub(crate) struct Written {
    pub object: Object,
    pub stored: StoredObject,
}

impl Written {
    ghost use Rattle.std.specs.Prelude.{◌≡◌, ◌<◌, ◌^◌, Some, codes, option_and_then, IfOk};
    ghost use Rattle.std.specs.Fmt.{decimal};
    ghost use Rattle.serde_json.specs.Find.{as_str};
    ghost use Rattle.kapi_object.specs.Object.{tree_of, stamped_tree};
    ghost use Rattle.kapi_object.specs.Tree.{in_metadata};
    ghost use Rattle.kapi_store.specs.UidAndVersion.{uid_of};
    ghost use Rattle.kapi_store.specs.Stored.{stored_tree};

    /// The object with the unique id of one revision and the version of another.
    #[tactic(auto, using(crate::proofs::Stamped::uid_there))]
    pub(crate) fn stamped(
        alloc: Global,
        object: Object,
        created: u64,
        revision: u64,
    ) -> Result<Written, Memory>
        requires { created < 2 ^ 48 }
        ensures tree { IfOk result (λ w. tree_of w.object ≡ stamped_tree (uid_of created) (decimal revision) (tree_of object)) }
        ensures same { IfOk result (λ w. stored_tree w.stored ≡ tree_of w.object) }
    {
        let (uid, version) = (uid(alloc, created)?, version(alloc, revision)?);
        let object = object.stamped(alloc, uid, version)?;
        Written::kept(alloc, object, created, revision)
    }

    /// The object as a tree.
    pub(crate) fn into_object(self) -> Object
        ensures { result ≡ self.object }
    {
        self.object
    }

    /// The object, which has the unique id of one revision and the version of another, also as it is kept.
    fn kept(alloc: Global, object: Object, created: u64, revision: u64) -> Result<Written, Memory>
        requires numbered { created < 2 ^ 48 }
        requires born { option_and_then as_str (in_metadata (codes "uid") (tree_of object)) ≡ Some (uid_of created) }
        requires versioned { option_and_then as_str (in_metadata (codes "resourceVersion") (tree_of object)) ≡ Some (decimal revision) }
        ensures tree { IfOk result (λ w. tree_of w.object ≡ tree_of object) }
        ensures same { IfOk result (λ w. stored_tree w.stored ≡ tree_of w.object) }
    {
        let stored = StoredObject::kept(alloc, &object, created, revision)?;
        Ok(Written { object, stored })
    }
}
