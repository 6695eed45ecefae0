//! Lists: the objects of a resource, of one namespace or name or of all.

ghost use Rattle.std.specs.Prelude.{◌≡◌, IfOk, map};
ghost use Rattle.kapi_store.specs.Private.Hidden.{visible};
ghost use Rattle.kapi_store.specs.Matching.{Meets};
ghost use Rattle.kapi_store.specs.Stored.{stored_tree};
ghost use Rattle.kapi_store.specs.Listing.{is_asked as is_asked_of, is_within as is_within_of, is_listed as is_listed_of, listed_objects, shown};
ghost use Rattle.kapi_store.specs.Private.Span.{after as after_text, first_key as first_key_of, end_key as end_key_of};

use crate::change::Shared;
use crate::key::Key;
use crate::matcher::Matcher;
use crate::slots::{Hidden, is_hidden};
use kapi_model::{ResourceRow, Selector};
use kapi_text::{Memory, Text};
use std::alloc::Global;
use std::collections::BTreeMap;

/// An object of a list, with its key.
#[derive(Drop)]
pub struct Listed<'a> {
    pub key: &'a Key,
    pub object: &'a Shared,
}

/// What a list selects.
#[derive(Clone, Copy)]
pub(crate) struct Selection<'a> {
    pub row: &'a ResourceRow,
    /// The namespace, empty for all namespaces.
    pub namespace: &'a str,
    pub selector: &'a Selector,
    /// The name, empty for all names.
    pub name: &'a str,
}

/// Whether a text is the one that is asked for; if an empty text is asked for, any text is.
pub fn is_asked(asked: &str, text: &Text) -> bool
    ensures { result ≡ is_asked_of asked.now text.now }
{
    asked.is_empty() || asked == text.as_str()
}

/// The first text after a text, in the order of bytes.
pub(crate) fn after(alloc: Global, text: &str) -> Result<Text, Memory>
    ensures { IfOk result (λ t. t ≡ after_text text.now) }
{
    let mut after = String::from_str(alloc, text)?;
    after.push('\0')?;
    Ok(Text::new(after))
}

impl<'a> Selection<'a> {
    /// Whether the key is within the selection.
    fn is_within(&self, key: &Key) -> bool
        ensures { result ≡ is_within_of self.now.row.now self.now.namespace.now self.now.name.now key.now }
    {
        self.row.group == key.group
            && (self.row.plural == key.resource
                && (is_asked(self.namespace, &key.namespace) && is_asked(self.name, &key.name)))
    }

    /// Whether the object is listed.
    #[tactic(auto, unfolding(crate::specs::Listing::is_listed))]
    fn is_listed(&self, matcher: &Matcher, key: &Key, object: &Shared) -> bool
        requires { Meets matcher.now self.now.selector.now }
        ensures { result ≡ is_listed_of self.now.row.now self.now.namespace.now self.now.selector.now self.now.name.now key.now (stored_tree object.now) }
    {
        self.is_within(key) && matcher.selects(object.get())
    }

    /// The first key that may be listed.
    #[tactic(auto, unfolding(crate::specs::Private::Span::first_key))]
    fn first_key(&self, alloc: Global) -> Result<Key, Memory>
        ensures { IfOk result (λ k. k ≡ first_key_of self.now.row.now self.now.namespace.now self.now.name.now) }
    {
        let name = if self.namespace.is_empty() {
            ""
        } else {
            self.name
        };
        Ok(Key {
            group: Text::copy_of(alloc, self.row.group.as_str())?,
            resource: Text::copy_of(alloc, self.row.plural.as_str())?,
            namespace: Text::copy_of(alloc, self.namespace)?,
            name: Text::copy_of(alloc, name)?,
        })
    }

    /// The first key after all that may be listed.
    #[tactic(auto, unfolding(crate::specs::Private::Span::end_key, crate::specs::Private::Span::first_key))]
    fn end_key(&self, alloc: Global) -> Result<Key, Memory>
        ensures { IfOk result (λ k. k ≡ end_key_of self.now.row.now self.now.namespace.now self.now.name.now) }
    {
        let mut key = self.first_key(alloc)?;
        if self.namespace.is_empty() {
            key.resource = after(alloc, self.row.plural.as_str())?;
        } else if self.name.is_empty() {
            key.namespace = after(alloc, self.namespace)?;
        } else {
            key.name = after(alloc, self.name)?;
        }
        Ok(key)
    }

    /// The objects that are listed, in the order of their keys; only slots between the first and the last key
    /// that may be listed are read.
    #[tactic(auto, unfolding(crate::specs::Private::Hidden::visible))]
    pub(crate) fn list_in<'s>(
        &self,
        alloc: Global,
        slots: &'s BTreeMap<Key, Shared>,
        hidden: &Option<Hidden>,
    ) -> Result<Vec<Listed<'s>>, Memory>
        ensures { IfOk result (λ v. map shown v.items ≡ listed_objects self.now.row.now self.now.namespace.now self.now.selector.now self.now.name.now (visible hidden.now slots.now.entries)) }
    {
        let (first, end) = (self.first_key(alloc)?, self.end_key(alloc)?);
        let matcher = Matcher::of(alloc, self.selector)?;
        let mut listed = Vec::new(alloc);
        for (key, object) in slots.range(&first..&end) {
            if !is_hidden(hidden, key) && self.is_listed(&matcher, key, object) {
                listed.push(Listed { key, object })?;
            }
        }
        Ok(listed)
    }
}
