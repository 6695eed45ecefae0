use kapi_http::Method;
use kapi_model::FieldFault;
use kapi_rules::{Atom, Point};
use kapi_text::{Memory, Sequence, Text};

/// The kind of place that a path of a served resource names.
#[derive(Clone, Copy, PartialEq, Eq)]
pub enum Place {
    /// The objects of one namespace, or of a cluster-scoped resource.
    Collection,
    /// The namespaces, which are deleted one by one.
    Namespaces,
    /// The objects of a namespaced resource in all namespaces.
    AllNamespaces,
    /// One object.
    Object,
    /// The status of one object.
    Status,
    /// The place of reviews, which are answered and not kept.
    Reviews,
    /// A health request.
    Health,
}

/// What is bad in a bad request (400).
#[derive(Clone, Copy, PartialEq, Eq)]
pub enum BadRequestReason {
    Target,
    Escape,
    Query,
    Impersonation,
    Json,
    Float,
    Kind,
    Version,
    /// The body names another object than the path.
    Name,
    /// The body names another namespace than the path.
    Namespace,
    /// The query asks for an option that is not served.
    Option,
}

/// What was not found (404).
#[derive(Clone, Copy, PartialEq, Eq)]
pub enum Nonexistent {
    /// The object that the request is about.
    Object,
    /// The namespace of the path.
    Namespace,
}

/// Why a request is refused. The first check that fails decides.
#[derive(Drop)]
pub enum Refusal {
    BadRequest(BadRequestReason),
    /// The caller may not impersonate: these points are denied, that of the user first, then those of the groups.
    Impersonation(Sequence<Point>),
    /// Authorization denies the request's point.
    Forbidden,
    /// The caller does not hold these parts of what the written role or binding grants.
    Escalation(Sequence<Atom>),
    /// The path is not one of a served resource.
    NoSuchResource,
    NotFound(Nonexistent),
    /// The role that the binding refers to does not exist.
    RoleNotFound(NamedRole),
    /// The place has other methods.
    MethodNotAllowed(Place),
    UnsupportedMediaType,
    AlreadyExists,
    /// The object is at this version, which is not the one that the body gives.
    Conflict(Text),
    /// The body has faults.
    Invalid(Sequence<FieldFault>),
    /// A binding may not change the role that it refers to.
    RoleRefChanged,
    /// The namespace still holds objects.
    NamespaceNotEmpty,
    NoRevisionLeft,
    /// The query asks for a revision that is not reached yet.
    NotYetReached(Revisions),
    /// A watch is asked for from a revision after which some changes may be kept no longer.
    Expired(OldRevision),
}

/// A role by its resource and its name.
#[derive(Drop)]
pub struct NamedRole {
    pub resource: Text,
    pub name: Text,
}

/// A revision that was asked for, and the current one.
#[derive(Clone, Copy, PartialEq, Eq)]
pub struct Revisions {
    pub asked: u64,
    pub current: u64,
}

/// A revision that was asked for, and the revision at which the window of the kept changes begins.
#[derive(Clone, Copy, PartialEq, Eq)]
pub struct OldRevision {
    pub asked: u64,
    pub begins: u64,
}

/// A refused request: the name of the object it is about, if that is not the name in its path, and the reason.
#[derive(Drop)]
pub struct Refused {
    pub name: Option<Text>,
    pub why: Refusal,
}

impl Refused {
    ghost use Rattle.std.specs.Prelude.{◌≡◌};
    ghost use Rattle.kapi_reply.specs.Refusals as table;

    /// Refused for the object or collection that the path names.
    pub fn asked_for(why: Refusal) -> Refused
        ensures { result ≡ table.asked_for why }
    {
        Refused { name: None, why }
    }

    /// Refused for the object of that name.
    pub fn named(name: Text, why: Refusal) -> Refused
        ensures { result ≡ table.named name why }
    {
        Refused {
            name: Some(name),
            why,
        }
    }
}

impl Place {
    ghost use Rattle.std.specs.Prelude.{◌≡◌};
    ghost use Rattle.kapi_reply.specs.Refusals.{methods_at};

    /// The methods that are served at the place.
    #[tactic(auto, unfolding(crate::specs::Refusals::methods_at))]
    pub fn methods(self) -> &'static [Method]
        ensures { result.now ≡ methods_at self }
    {
        match self {
            Place::Collection => &[Method::Get, Method::Post, Method::Delete],
            Place::Namespaces => &[Method::Get, Method::Post],
            Place::AllNamespaces => &[Method::Get],
            Place::Object => &[Method::Get, Method::Put, Method::Patch, Method::Delete],
            Place::Status => &[Method::Get, Method::Put, Method::Patch],
            Place::Reviews => &[Method::Post],
            Place::Health => &[Method::Get],
        }
    }
}

impl BadRequestReason {
    ghost use Rattle.std.specs.Prelude.{◌≡◌};
    ghost use Rattle.kapi_reply.specs.Refusals.{word_text};

    /// The word as in the message.
    pub fn as_str(self) -> &'static str
        ensures { result.now ≡ word_text self }
    {
        match self {
            BadRequestReason::Target => "target",
            BadRequestReason::Escape => "escape",
            BadRequestReason::Query => "query",
            BadRequestReason::Impersonation => "impersonation",
            BadRequestReason::Json => "json",
            BadRequestReason::Float => "float",
            BadRequestReason::Kind => "kind",
            BadRequestReason::Version => "version",
            BadRequestReason::Name => "name",
            BadRequestReason::Namespace => "namespace",
            BadRequestReason::Option => "option",
        }
    }
}

/// A check that refused the request or ran out of memory.
#[derive(Drop)]
pub enum CheckError {
    Refused(Refused),
    Memory,
}

impl From<Memory> for CheckError {
    ghost use Rattle.std.specs.Prelude.{◌≡◌};
    ghost use Rattle.kapi_reply.specs.declared.refusal.CheckError.TheVariants.{Memory as NoMemory};

    ghost from_gives = { λ _ e. e ≡ NoMemory };

    fn from(_error: Memory) -> CheckError {
        CheckError::Memory
    }
}

impl From<Refused> for CheckError {
    ghost use Rattle.std.specs.Prelude.{◌≡◌};
    ghost use Rattle.kapi_reply.specs.declared.refusal.CheckError.TheVariants as error;

    ghost from_gives = { λ r e. e ≡ error.Refused r };

    fn from(refused: Refused) -> CheckError {
        CheckError::Refused(refused)
    }
}
