use kapi_http::StatusCode;
use kapi_object::Object;
use kapi_reply::Content;
use kapi_store::{Key, Ready, Shared};
use kapi_text::Text;
use kapi_watch::Watch;

/// What a request that passed every check gets.
#[derive(Drop)]
pub enum Passed {
    Answered(Response),
    /// A watch starts.
    Watching(Watch),
}

/// A reply, and the write that it reports, if the request makes one.
#[derive(Drop)]
pub struct Response {
    pub code: StatusCode,
    pub content: Content,
    pub body: Vec<u8>,
    /// The write, of no, one or many changes; it is prepared and still to be made.
    pub write: Option<Ready>,
}

/// What a request that passes all checks but the store's answers or changes.
#[derive(Drop)]
pub enum Plan {
    /// The request changes nothing.
    Tell(Response),
    /// The request starts a watch.
    Watch(Watch),
    Create(NewObject),
    /// The object takes the place of the stored one.
    Replace(Replacement),
    Delete(Deletion),
}

/// An object that is to be written, and its place.
#[derive(Drop)]
pub struct NewObject {
    pub key: Key,
    pub object: Object,
}

/// An object that is to be written, and the stored one it replaces.
#[derive(Drop)]
pub struct Replacement {
    pub new: NewObject,
    pub old: Shared,
}

/// The objects that are to be deleted, and the reply.
#[derive(Drop)]
pub struct Deletion {
    /// The name that the deletion is about; empty for a collection.
    pub name: Text,
    pub keys: Vec<Key>,
    pub reply: Vec<u8>,
}
