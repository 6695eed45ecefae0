//! Who one can become.
ghost use Rattle.std.specs.Prelude.{◌≡◌, ◌++◌, ◌∷◌, [], IfOk, OnOk};

use kapi_text::{Memory, Text, TryCopy};
use std::alloc::{AllocError, Global};

/// What a node is.
#[derive(Clone, Copy, PartialEq, Eq, PartialOrd, Ord)]
pub enum NodeKind {
    Everything,
    /// Each user that a binding names.
    EveryUser,
    /// All in a namespace, or in each if that is empty.
    All,
    /// The service accounts of a namespace, or of each if that is empty.
    Accounts,
    /// What a namespace asks of its pods.
    Limits,
    User,
    Group,
    Account,
    /// Whoever holds a Role in a namespace.
    Role,
    /// Whoever holds a ClusterRole in a namespace, or cluster-wide if that is empty.
    ClusterRole,
}

/// Whom a subject of a binding can become: a user, group, account, role, or many at once. Its place is a namespace, or empty.
#[derive(PartialEq, Eq, PartialOrd, Ord, Drop)]
pub struct Node {
    pub kind: NodeKind,
    pub place: Text,
    pub name: Text,
}

impl TryCopy for Node {
    fn copy(&self, alloc: Global) -> Result<Node, AllocError> {
        Ok(Node {
            kind: self.kind,
            place: self.place.copy(alloc)?,
            name: self.name.copy(alloc)?,
        })
    }
}

/// Puts a node at the end of a list.
pub fn push_node(
    alloc: Global,
    list: &mut Vec<Node>,
    kind: NodeKind,
    place: &str,
    name: &str,
) -> Result<(), Memory>
    ensures { OnOk result (list.new.items ≡ list.old.items ++ record { kind = kind; place = place.now; name = name.now } ∷ []) }
{
    let place = Text::copy_of(alloc, place)?;
    let name = Text::copy_of(alloc, name)?;
    list.push(Node { kind, place, name })?;
    Ok(())
}
