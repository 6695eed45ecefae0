//! Who can become whom, and by which steps.
ghost use Rattle.std.specs.Prelude.{◌≡◌, ℕ, ◌+◌, ◌<◌, List, Some, false, length, map, true, IfOk, OnOk};
ghost use Rattle.std.specs.List.{slice_get};
ghost use Rattle.kapi_paths.specs.Chains.{Has, IsChain, IsInside};
ghost use Rattle.kapi_paths.specs.Graphs as graphs;
ghost use Rattle.kapi_paths.specs.Graphs.{AddsPaths, AreApart, AreAt, AreBefore, HasAll, IsCovered, IsPath, IsThere, next_of};
ghost use Rattle.kapi_paths.specs.Numbers.{IsOnce};
ghost use Rattle.kapi_paths.specs.Rights.{row_of};
ghost use Rattle.kapi_paths.specs.Sources.{sources as sources_of};
ghost use Rattle.kapi_paths.specs.Steps.{everything};
ghost use Rattle.kapi_paths.specs.declared.node.Node.{Node as Who};
ghost use Rattle.kapi_paths.specs.declared.path.Path.{Path as FoundPath};

use crate::gathered::sources;
use crate::graph::{Numbered, rows};
use crate::node::{Node, NodeKind};
use crate::search::Search;
use crate::steps::Question;
use kapi_policy::Policy;
use kapi_text::{Memory, Sequence, TryCopy};
use std::alloc::Global;

/// A path from a node to another: the nodes after the first, of which the last is the other.
#[derive(Drop)]
pub struct Path {
    pub from: Node,
    pub to: Node,
    pub nodes: Sequence<Node>,
}

/// Whether the kind is listed: all but roles.
pub fn is_listed(kind: NodeKind) -> bool
    ensures { result ≡ graphs.is_listed kind }
{
    match kind {
        NodeKind::Role => false,
        NodeKind::ClusterRole => false,
        _ => true,
    }
}

fn node_at(nodes: &[Node], number: usize) -> &Node
    requires { number < length nodes.now }
    ensures { slice_get nodes.now number ≡ Some result.now }
{
    &nodes[number]
}

// The nodes of numbers.
fn nodes_at(alloc: Global, nodes: &[Node], numbers: &[usize]) -> Result<Vec<Node>, Memory>
    requires { (n : ℕ) → Has numbers.now n → n < length nodes.now }
    ensures { IfOk result (λ v. AreAt nodes.now numbers.now v.items) }
{
    let mut list = Vec::new(alloc);
    for number in numbers {
        list.push(node_at(nodes, *number).copy(alloc)?)?;
    }
    Ok(list)
}

// The path over the nodes of numbers.
fn drawn(
    alloc: Global,
    nodes: &[Node],
    from: usize,
    to: usize,
    numbers: &[usize],
) -> Result<Path, Memory>
    requires from { from < length nodes.now }
    requires to { to < length nodes.now }
    requires numbers { (n : ℕ) → Has numbers.now n → n < length nodes.now }
    ensures from { IfOk result (λ p. slice_get nodes.now from ≡ Some p.from) }
    ensures to { IfOk result (λ p. slice_get nodes.now to ≡ Some p.to) }
    ensures path { IfOk result (λ p. AreAt nodes.now numbers.now p.nodes) }
{
    Ok(Path {
        from: node_at(nodes, from).copy(alloc)?,
        to: node_at(nodes, to).copy(alloc)?,
        nodes: Sequence::new(nodes_at(alloc, nodes, numbers)?),
    })
}

// Puts a shortest path to the node of that number at the end of a list, if chains lead there. Answers whether they do.
#[tactic(auto, using(crate::proofs::Numbering::before_more))]
fn push_path(
    alloc: Global,
    list: &mut Vec<Path>,
    nodes: &[Node],
    search: &Search<'_>,
    to: usize,
) -> Result<bool, Memory>
    requires inside { IsInside search.now.graph }
    requires nodes { length search.now.graph ≡ length nodes.now }
    requires from { search.now.start < length nodes.now }
    requires to { to < length nodes.now }
    requires alone { (path : List ℕ) → IsChain search.now.graph search.now.start path 0 → to ≡ 0 }
    requires other { search.now.start ≡ to → ⊥ }
    requires listed { (x : Who) → slice_get nodes.now to ≡ Some x → graphs.is_listed x.kind ≡ true }
    requires once { IsOnce nodes.now }
    requires before { AreBefore nodes.now search.now.start to list.old.items }
    ensures after { OnOk result (AreBefore nodes.now search.now.start (to + 1) list.new.items) }
    ensures added { OnOk result (AddsPaths nodes.now search.now.graph search.now.start list.old.items list.new.items) }
    ensures there { IfOk result (λ reached. reached ≡ true → IsThere nodes.now list.new.items search.now.start to) }
    ensures unreached { IfOk result (λ reached. reached ≡ false → (path : List ℕ) → IsChain search.now.graph search.now.start path to → ⊥) }
{
    match search.path_to(alloc, to)? {
        Some(numbers) => {
            let path = drawn(alloc, nodes, search.start(), to, numbers.as_slice())?;
            list.push(path)?;
            Ok(true)
        }
        None => Ok(false),
    }
}

// The same, if that node is another, and is listed.
#[tactic(auto, using(crate::proofs::Numbering::before_more))]
fn push_listed(
    alloc: Global,
    list: &mut Vec<Path>,
    nodes: &[Node],
    search: &Search<'_>,
    to: usize,
) -> Result<(), Memory>
    requires inside { IsInside search.now.graph }
    requires nodes { length search.now.graph ≡ length nodes.now }
    requires from { search.now.start < length nodes.now }
    requires to { to < length nodes.now }
    requires alone { (path : List ℕ) → IsChain search.now.graph search.now.start path 0 → to ≡ 0 }
    requires once { IsOnce nodes.now }
    requires before { AreBefore nodes.now search.now.start to list.old.items }
    ensures after { OnOk result (AreBefore nodes.now search.now.start (to + 1) list.new.items) }
    ensures added { OnOk result (AddsPaths nodes.now search.now.graph search.now.start list.old.items list.new.items) }
    ensures covered { OnOk result (IsCovered nodes.now search.now.graph list.new.items search.now.start to) }
{
    // Most nodes are not reached, so that is asked first.
    if !search.reaches(to) || to == search.start() {
        return Ok(());
    }
    if !is_listed(node_at(nodes, to).kind) {
        return Ok(());
    }
    push_path(alloc, list, nodes, search, to)?;
    Ok(())
}

#[tactic(auto, using(crate::proofs::Numbering::before_next))]
fn push_each(
    alloc: Global,
    list: &mut Vec<Path>,
    nodes: &[Node],
    search: &Search<'_>,
) -> Result<(), Memory>
    requires inside { IsInside search.now.graph }
    requires nodes { length search.now.graph ≡ length nodes.now }
    requires from { search.now.start < length nodes.now }
    requires other { (path : List ℕ) → IsChain search.now.graph search.now.start path 0 → ⊥ }
    requires once { IsOnce nodes.now }
    requires before { AreBefore nodes.now search.now.start 1 list.old.items }
    ensures after { OnOk result (AreBefore nodes.now (search.now.start + 1) 0 list.new.items) }
    ensures added { OnOk result (AddsPaths nodes.now search.now.graph search.now.start list.old.items list.new.items) }
    ensures covered { OnOk result ((to : ℕ) → 0 < to → to < length nodes.now → IsCovered nodes.now search.now.graph list.new.items search.now.start to) }
{
    for to in 1..nodes.len() {
        push_listed(alloc, list, nodes, search, to)?;
    }
    Ok(())
}

// The paths of a search: to everything, or else to each node that is listed.
#[tactic(auto, using(crate::proofs::Numbering::before_next))]
fn push_found(
    alloc: Global,
    list: &mut Vec<Path>,
    nodes: &[Node],
    search: &Search<'_>,
) -> Result<(), Memory>
    requires inside { IsInside search.now.graph }
    requires nodes { length search.now.graph ≡ length nodes.now }
    requires from { search.now.start < length nodes.now }
    requires some { 0 < search.now.start }
    requires first { slice_get nodes.now 0 ≡ Some everything }
    requires once { IsOnce nodes.now }
    requires before { AreBefore nodes.now search.now.start 0 list.old.items }
    ensures after { OnOk result (AreBefore nodes.now (search.now.start + 1) 0 list.new.items) }
    ensures added { OnOk result (AddsPaths nodes.now search.now.graph search.now.start list.old.items list.new.items) }
    ensures covered { OnOk result ((to : ℕ) → IsCovered nodes.now search.now.graph list.new.items search.now.start to) }
{
    if push_path(alloc, list, nodes, search, 0)? {
        return Ok(());
    }
    push_each(alloc, list, nodes, search)?;
    Ok(())
}

fn push_paths(
    alloc: Global,
    list: &mut Vec<Path>,
    nodes: &[Node],
    rows: &[Sequence<usize>],
    from: usize,
) -> Result<(), Memory>
    requires inside { IsInside rows.now }
    requires nodes { length rows.now ≡ length nodes.now }
    requires from { from < length nodes.now }
    requires some { 0 < from }
    requires first { slice_get nodes.now 0 ≡ Some everything }
    requires once { IsOnce nodes.now }
    requires before { AreBefore nodes.now from 0 list.old.items }
    ensures after { OnOk result (AreBefore nodes.now (from + 1) 0 list.new.items) }
    ensures added { OnOk result (AddsPaths nodes.now rows.now from list.old.items list.new.items) }
    ensures covered { OnOk result ((to : ℕ) → IsCovered nodes.now rows.now list.new.items from to) }
{
    let search = Search::new(alloc, rows, from)?;
    push_found(alloc, list, nodes, &search)?;
    Ok(())
}

/// The paths of each subject of the bindings: to everything, or else to each node that it reaches, besides those who hold a role.
pub fn paths<P: Policy>(alloc: Global, asked: &Question<'_, P>) -> Result<Vec<Path>, Memory>
    ensures each { IfOk result (λ v. (p : FoundPath) → Has v.items p → IsPath (next_of (P.content asked.now.policy.now) asked.now.bindings.now asked.now.known.now (map row_of asked.now.rights.now)) (sources_of asked.now.bindings.now) p) }
    ensures once { IfOk result (λ v. AreApart v.items) }
    ensures listed { IfOk result (λ v. HasAll (next_of (P.content asked.now.policy.now) asked.now.bindings.now asked.now.known.now (map row_of asked.now.rights.now)) (sources_of asked.now.bindings.now) v.items) }
{
    let mut numbered = Numbered::of_everything(alloc)?;
    drop(numbered.row(alloc, sources(alloc, asked.bindings.list())?)?);
    let count = numbered.nodes().len();
    let rows = rows(alloc, asked, &mut numbered)?;
    let mut list = Vec::new(alloc);
    for from in 1..count {
        push_paths(alloc, &mut list, numbered.nodes(), rows.as_slice(), from)?;
    }
    Ok(list)
}
