ghost use Rattle.std.specs.Prelude.{◌≡◌, None};

use crate::kept_watch::KeptWatch;
use kapi_reply::WrittenReply;
use kapi_store::Ready;

/// A complete answer, and the write that it reports, which is still to be made.
#[derive(Drop)]
pub struct Prepared {
    pub reply: WrittenReply,
    pub write: Option<Ready>,
    /// The watch whose head the reply is.
    pub watch: Option<KeptWatch>,
}

impl Prepared {
    /// An answer of a reply alone.
    pub fn told(reply: WrittenReply) -> Prepared
        ensures { result ≡ record { reply = reply; write = None; watch = None } }
    {
        Prepared {
            reply,
            write: None,
            watch: None,
        }
    }
}
