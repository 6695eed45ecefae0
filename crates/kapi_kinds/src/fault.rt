//! What is wrong with a file of kinds, and where.
use kapi_manifests::Origin;
use kapi_text::Text;
use std::fmt;

/// Why what begins at a place of a file is no resource type that can be served.
#[derive(Drop)]
pub enum Reason {
    /// It is no JSON text of an object.
    Piece(kapi_manifests::Reason),
    /// The object is of neither form.
    Neither,
    /// A line of a kind has no member of this name.
    Unknown(Text),
    /// A member is not as it has to be, as this says.
    Wanted(&'static str),
    /// The group has the resource types of the programs alone.
    Reserved(Text),
    /// The resource, of this group, is in the table already.
    ResourceTaken(Text, Text),
    /// The kind, of this group, is in the table already.
    KindTaken(Text, Text),
}

/// What is wrong with what begins there.
#[derive(Drop)]
pub struct Fault {
    pub origin: Origin,
    pub reason: Reason,
}

impl fmt::Display for Reason {
    fn fmt<W: fmt::Write>(&self, f: &mut fmt::Formatter<W>) -> fmt::Result {
        match self {
            Reason::Piece(reason) => write!(f, "{reason}"),
            Reason::Neither => {
                f.write_str("it is neither a line of a kind nor a CustomResourceDefinition")
            }
            Reason::Unknown(name) => {
                let name = name.as_str();
                write!(
                    f,
                    "{name}: unknown; a line of a kind has group, version, resource, kind, namespaced and status"
                )
            }
            Reason::Wanted(wanted) => f.write_str(wanted),
            Reason::Reserved(group) => {
                let group = group.as_str();
                write!(f, "no kind is added to the group {group}")
            }
            Reason::ResourceTaken(resource, group) => {
                write_taken(f, "resource", resource.as_str(), group.as_str())
            }
            Reason::KindTaken(kind, group) => {
                write_taken(f, "kind", kind.as_str(), group.as_str())
            }
        }
    }
}

fn write_taken<W: fmt::Write>(
    f: &mut fmt::Formatter<W>,
    what: &str,
    name: &str,
    group: &str,
) -> fmt::Result {
    if group.is_empty() {
        return write!(f, "the {what} {name} of the core group is there already");
    }
    write!(f, "the {what} {name} of the group {group} is there already")
}
