//! Events as JSON texts.
ghost use Rattle.std.specs.Prelude.{◌≡◌, IfOk, option_map};
ghost use Rattle.serde_json.specs.Data.{Data};
ghost use Rattle.serde_json.specs.Written.{compact_text};
ghost use Rattle.kapi_store.specs.Stored.{stored_tree};
ghost use Rattle.kapi_store.specs.Gone.{at_version};
ghost use Rattle.kapi_watch.specs.Shown.{event_of};
ghost use Rattle.kapi_watch.specs.Text.{type_of, object_text_of, event_tree};

use crate::event::{Event, Removed};
use kapi_object::tree_form::quote;
use kapi_text::Memory;
use std::alloc::Global;

/// A copy of the text of an object that goes.
fn removed_text(alloc: Global, removed: &Removed<'_>) -> Result<Vec<u8>, Memory>
    ensures { IfOk result (λ b. b.items ≡ compact_text (at_version removed.now.revision (stored_tree removed.now.object.now))) }
{
    let text = removed.text.as_str().as_bytes();
    let mut copy = Vec::with_capacity(alloc, text.len())?;
    copy.extend_from_slice(text)?;
    Ok(copy)
}

impl Event<'_> {
    /// The type of the event.
    pub fn kind(&self) -> &'static str
        ensures { result.now ≡ type_of (event_of self.now) }
    {
        match self {
            Event::Added(_object) => "ADDED",
            Event::Modified(_object) => "MODIFIED",
            Event::Deleted(_removed) => "DELETED",
            Event::Expired | Event::Refused => "ERROR",
        }
    }

    /// The text of the object that the event shows; of a removed one, with the revision of its removal; none of a watch
    /// that is at its end, which is reported by a Status.
    pub fn object_text(&self, alloc: Global) -> Result<Option<Vec<u8>>, Memory>
        ensures { IfOk result (λ t. option_map (λ b. b.items) t ≡ object_text_of (event_of self.now)) }
    {
        match self {
            Event::Added(object) | Event::Modified(object) => Ok(Some(object.render(alloc)?)),
            Event::Deleted(removed) => Ok(Some(removed_text(alloc, removed)?)),
            Event::Expired | Event::Refused => Ok(None),
        }
    }
}

/// The text of an event of a type with this text of an object.
pub fn event_text(alloc: Global, kind: &str, object: &[u8]) -> Result<Vec<u8>, Memory>
    ensures { (d : Data) → object.now ≡ compact_text d → IfOk result (λ b. b.items ≡ compact_text (event_tree kind.now d)) }
{
    let kind = quote(alloc, kind)?;
    let mut text = Vec::new(alloc);
    text.extend_from_slice(br#"{"object":"#)?;
    text.extend_from_slice(object)?;
    text.extend_from_slice(br#","type":"#)?;
    text.extend_from_slice(kind.as_slice())?;
    text.push(b'}')?;
    Ok(text)
}
