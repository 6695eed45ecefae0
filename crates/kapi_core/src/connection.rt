ghost use Rattle.std.specs.Prelude.{◌≡◌, Some};
ghost use Rattle.kapi_http.specs.Inbox.{after_next, next_of};

use kapi_answer::KeptWatch;
use kapi_http::{HttpFault, HttpRequest, Inbox};
use kapi_model::Identity;

/// An open connection: the identity that makes its requests, the bytes not served yet, and its running watch, if any.
/// While a watch runs no request is served.
#[derive(Drop)]
pub struct Connection {
    pub identity: Identity,
    pub inbox: Inbox,
    pub watching: Option<KeptWatch>,
}

impl Connection {
    /// Takes the first item out, and shows this watch from now on, if there is one.
    pub fn finish(&mut self, item: &Result<HttpRequest, HttpFault>, watching: Option<KeptWatch>)
        requires { next_of self.old.inbox ≡ Some item.now }
        ensures { self.new ≡ record self.old { inbox = after_next self.old.inbox item.now; watching = watching } }
    {
        self.inbox.done(item);
        self.watching = watching;
    }
}
