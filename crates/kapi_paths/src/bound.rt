//! Which bindings may give an identity their roles. Each identity is matched with these alone, not with all bindings.
ghost use Rattle.std.specs.Prelude.{◌≡◌, ◌<◌, ℕ, [], false, get_or, length, IfOk, OnOk};
ghost use Rattle.std.specs.BTreeMap.{is_at};
ghost use Rattle.kapi_model.specs.declared.subject.Subject.{Subject as Whom};
ghost use Rattle.kapi_policy.specs.Views.{binding_of};
ghost use Rattle.kapi_paths.specs.Bound as keys;
ghost use Rattle.kapi_paths.specs.Bound.{IsMarked, positions_at};
ghost use Rattle.kapi_paths.specs.Chains.{Has};
ghost use Rattle.kapi_paths.specs.Numbers.{node_cmp};
ghost use Rattle.kapi_paths.specs.Steps.{node as node_of};
ghost use Rattle.kapi_paths.specs.declared.node.Node.{Node as Who};

use crate::node::{Node, NodeKind};
use kapi_model::{Identity, Subject, account_namespace, account_user};
use kapi_policy::Binding;
use kapi_text::{Memory, Sequence, Text};
use std::alloc::Global;
use std::collections::BTreeMap;
use std::marker::Model;

/// Bindings, with their positions under the user or group of each subject.
#[derive(Drop)]
pub struct Bound<'a> {
    list: &'a [Binding<'a>],
    positions: BTreeMap<Node, Sequence<usize>>,
}

impl<'a> Model for Bound<'a> {
    ghost use Rattle.std.specs.Prelude.{List, map};
    ghost use Rattle.kapi_policy.specs.Decided.{Binding};
    ghost use Rattle.kapi_policy.specs.Views.{binding_of};
    ghost use Rattle.kapi_paths.specs.Bound.{AreUnder};

    ghost Value = { List Binding };

    ghost view = { λ b. map binding_of b.list.now };

    ghost invariant = { λ b. AreUnder b.positions (map binding_of b.list.now) };
}

fn key(alloc: Global, kind: NodeKind, name: &str) -> Result<Node, Memory>
    ensures { IfOk result (λ k. k ≡ node_of kind [] name.now) }
{
    let place = Text::copy_of(alloc, "")?;
    let name = Text::copy_of(alloc, name)?;
    Ok(Node { kind, place, name })
}

// The user or group of a subject; an account is the user that it is.
fn key_of(alloc: Global, namespace: &str, subject: &Subject) -> Result<Node, Memory>
    ensures { IfOk result (λ k. k ≡ keys.key_of namespace.now subject.now) }
{
    match subject {
        Subject::User(name) => key(alloc, NodeKind::User, name.as_str()),
        Subject::Group(name) => key(alloc, NodeKind::Group, name.as_str()),
        Subject::ServiceAccount(account) => {
            let place = account_namespace(account, namespace);
            let user = account_user(alloc, place, account.name.as_str())?;
            key(alloc, NodeKind::User, user.as_str())
        }
    }
}

// Takes the positions under a key out.
fn take_positions(
    alloc: Global,
    positions: &mut BTreeMap<Node, Sequence<usize>>,
    key: &Node,
) -> Vec<usize>
    ensures list { result.items ≡ positions_at positions.old key.now }
    ensures others { (k : Who) → is_at (node_cmp key.now) k ≡ false → positions_at positions.new k ≡ positions_at positions.old k }
{
    match positions.remove(key) {
        Some(list) => list.into_vec(),
        None => Vec::new(alloc),
    }
}

// Puts a position under a key.
fn add(
    alloc: Global,
    positions: &mut BTreeMap<Node, Sequence<usize>>,
    key: Node,
    position: usize,
) -> Result<(), Memory>
    ensures kept { OnOk result ((k : Who) (i : ℕ) → Has (positions_at positions.old k) i → Has (positions_at positions.new k) i) }
    ensures added { OnOk result (Has (positions_at positions.new key) position) }
{
    let mut list = take_positions(alloc, positions, &key);
    list.push(position)?;
    drop(positions.insert(key, Sequence::new(list))?);
    Ok(())
}

// Puts the position of a binding under the key of each of its subjects.
fn add_subjects(
    alloc: Global,
    positions: &mut BTreeMap<Node, Sequence<usize>>,
    binding: &Binding<'_>,
    position: usize,
) -> Result<(), Memory>
    ensures kept { OnOk result ((k : Who) (i : ℕ) → Has (positions_at positions.old k) i → Has (positions_at positions.new k) i) }
    ensures added { OnOk result ((s : Whom) → Has (binding_of binding.now).subjects s → Has (positions_at positions.new (keys.key_of (binding_of binding.now).namespace s)) position) }
{
    for subject in binding.subjects {
        let key = key_of(alloc, binding.namespace, subject)?;
        add(alloc, positions, key, position)?;
    }
    Ok(())
}

fn mark(marks: &mut Vec<bool>, position: usize)
    ensures kept { (i : ℕ) → IsMarked marks.old.items i → IsMarked marks.new.items i }
    ensures marked { position < length marks.old.items → IsMarked marks.new.items position }
    ensures length { length marks.new.items ≡ length marks.old.items }
{
    if position < marks.len() {
        marks[position] = true;
    }
}

fn mark_each(marks: &mut Vec<bool>, positions: &[usize])
    ensures kept { (i : ℕ) → IsMarked marks.old.items i → IsMarked marks.new.items i }
    ensures marked { (i : ℕ) → Has positions.now i → i < length marks.old.items → IsMarked marks.new.items i }
    ensures length { length marks.new.items ≡ length marks.old.items }
{
    for position in positions {
        mark(marks, *position);
    }
}

/// Whether the position is marked.
pub fn is_marked(marks: &[bool], position: usize) -> bool
    ensures { result ≡ get_or marks.now position false }
{
    match marks.get(position) {
        Some(mark) => *mark,
        None => false,
    }
}

impl<'a> Bound<'a> {
    ghost use Rattle.std.specs.Prelude.{◌≡◌, ◌<◌, ℕ, Some, length, map, IfOk};
    ghost use Rattle.std.specs.List.{slice_get};
    ghost use Rattle.kapi_policy.specs.Decided.{Binding as Decided};
    ghost use Rattle.kapi_policy.specs.Views.{binding_of};
    ghost use Rattle.kapi_paths.specs.Bound.{AreMarked, IsMarked};
    ghost use Rattle.kapi_paths.specs.Chains.{Has};

    /// The bindings of a list.
    pub fn new(alloc: Global, list: &'a [Binding<'a>]) -> Result<Bound<'a>, Memory>
        ensures { IfOk result (λ b. b ≡ map binding_of list.now) }
    {
        let mut positions = BTreeMap::new(alloc);
        for (position, binding) in list.iter().enumerate() {
            add_subjects(alloc, &mut positions, binding, position)?;
        }
        Ok(Bound { list, positions })
    }

    /// The bindings in their order.
    pub fn list(&self) -> &'a [Binding<'a>]
        ensures { map binding_of result.now ≡ self.now }
    {
        let _ = &self.positions;
        self.list
    }

    fn mark_under(&self, marks: &mut Vec<bool>, key: &Node)
        ensures kept { (i : ℕ) → IsMarked marks.old.items i → IsMarked marks.new.items i }
        ensures marked { (b : Decided) (s : Whom) (i : ℕ) → slice_get self.now i ≡ Some b → Has b.subjects s → keys.key_of b.namespace s ≡ key.now → i < length marks.old.items → IsMarked marks.new.items i }
        ensures length { length marks.new.items ≡ length marks.old.items }
    {
        let _ = &self.list;
        if let Some(positions) = self.positions.get(key) {
            mark_each(marks, positions.as_slice());
        }
    }

    /// For each binding whether it may give the identity its role; each that does is marked.
    pub fn marks(&self, alloc: Global, identity: &Identity) -> Result<Vec<bool>, Memory>
        ensures marked { IfOk result (λ marks. AreMarked identity.now self.now marks.items) }
    {
        let mut marks = vec![in alloc; false; self.list.len()]?;
        self.mark_under(
            &mut marks,
            &key(alloc, NodeKind::User, identity.user.as_str())?,
        );
        for group in identity.groups.as_slice() {
            self.mark_under(&mut marks, &key(alloc, NodeKind::Group, group.as_str())?);
        }
        Ok(marks)
    }
}
