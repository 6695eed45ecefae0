ghost use Rattle.std.specs.Prelude.{◌≡◌};
ghost use Rattle.serde_json.specs.Written.{compact_text};
ghost use Rattle.kapi_store.specs.Gone.{at_version};
ghost use Rattle.kapi_store.specs.Stored.{stored_tree};

use kapi_store::StoredObject;
use kapi_text::Text;

/// An object that a watch sees go, with its text at the revision of the change.
#[derive(Clone, Copy)]
pub struct Removed<'a> {
    pub object: &'a StoredObject,
    pub revision: u64,
    pub text: &'a Text,
    ghost told: { text.now ≡ compact_text (at_version revision (stored_tree object.now)) },
}

/// What a watch shows (Kubernetes, 'Efficient detection of changes').
#[derive(Clone, Copy)]
pub enum Event<'a> {
    /// The object was created, or came to be selected.
    Added(&'a StoredObject),
    /// The object was changed, and was and is selected.
    Modified(&'a StoredObject),
    /// The object, as it last was, was removed, or is no longer selected.
    Deleted(Removed<'a>),
    /// Changes that were not shown may be kept no longer: the watch is at its end.
    Expired,
    /// The watch's identity may not watch any more: the watch is at its end.
    Refused,
}
