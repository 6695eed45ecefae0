//! Shortest chains of steps in a graph of numbered nodes, by breadth first.
ghost use Rattle.std.specs.Prelude.{◌≡◌, ◌==◌, ◌<◌, ◌≤◌, ℕ, List, [], false, length, IfOk, IfSome, IfNone, OnOk};
ghost use Rattle.std.specs.List.{fold};
ghost use Rattle.kapi_paths.specs.Chains.{IsChain, IsInside, row as row_of};
ghost use Rattle.kapi_paths.specs.Levels.{IsFoundAt, IsSearched, found_at, is_open as is_open_in, passed, started, visited};
ghost use Rattle.kapi_paths.specs.declared.search.Discovered.{Discovered as ByWhat};

use kapi_text::{Memory, Sequence};
use std::alloc::Global;
use std::marker::Model;
use std::mem;

/// How a node is found: after so many steps, the last of them from that node.
#[derive(Clone, Copy)]
pub struct Discovered {
    pub steps: usize,
    pub from: usize,
}

fn row(graph: &[Sequence<usize>], node: usize) -> &[usize]
    ensures { result.now ≡ row_of graph.now node }
{
    match graph.get(node) {
        Some(nodes) => nodes.as_slice(),
        None => &[],
    }
}

// What is found so far, by node, and the nodes of the next level.
#[derive(Drop)]
struct Front {
    table: Vec<Option<Discovered>>,
    next: Vec<usize>,
}

impl Model for Front {
    ghost use Rattle.kapi_paths.specs.Levels.{State};

    ghost Value = { State };

    ghost view = { λ f. record { table = f.table.items; next = f.next.items } };
}

impl Front {
    fn start(alloc: Global, size: usize, from: usize) -> Result<Front, Memory>
        requires { from < size }
        ensures { IfOk result (λ f. f ≡ started size from) }
    {
        let mut table = vec![in alloc; None; size]?;
        let next = vec![in alloc; from]?;
        table[from] = Some(Discovered { steps: 0, from });
        Ok(Front { table, next })
    }

    fn is_last(&self) -> bool
        ensures { result ≡ (length self.now.next == 0) }
    {
        self.next.is_empty()
    }

    fn take_next(&mut self, alloc: Global) -> Vec<usize>
        ensures level { result.items ≡ self.old.next }
        ensures left { self.new ≡ record { table = self.old.table; next = [] } }
    {
        mem::replace(&mut self.next, Vec::new(alloc))
    }

    fn into_table(self) -> Vec<Option<Discovered>>
        ensures { result.items ≡ self.table }
    {
        self.table
    }

    fn is_open(&self, node: usize) -> bool
        ensures { result ≡ is_open_in self.now.table node }
    {
        match self.table.get(node) {
            Some(None) => true,
            _ => false,
        }
    }

    #[tactic(auto, unfolding(crate::specs::Levels::visited))]
    fn visit(&mut self, node: usize, found: Discovered) -> Result<(), Memory>
        ensures { OnOk result (self.new ≡ visited found self.old node) }
    {
        if self.is_open(node) {
            self.next.push(node)?;
            self.table[node] = Some(found);
        }
        Ok(())
    }

    fn pass_row(&mut self, nodes: &[usize], found: Discovered) -> Result<(), Memory>
        ensures { OnOk result (self.new ≡ fold (visited found) self.old nodes.now) }
    {
        for node in nodes {
            self.visit(*node, found)?;
        }
        Ok(())
    }

    fn pass_level(
        &mut self,
        graph: &[Sequence<usize>],
        level: &[usize],
        steps: usize,
    ) -> Result<(), Memory>
        ensures { OnOk result (self.new ≡ fold (passed graph.now steps) self.old level.now) }
    {
        for node in level {
            self.pass_row(row(graph, *node), Discovered { steps, from: *node })?;
        }
        Ok(())
    }
}

// ---- the search

fn table(
    alloc: Global,
    graph: &[Sequence<usize>],
    from: usize,
) -> Result<Vec<Option<Discovered>>, Memory>
    requires inside { IsInside graph.now }
    requires from { from < length graph.now }
    ensures { IfOk result (λ t. IsSearched graph.now from t.items) }
{
    let mut front = Front::start(alloc, graph.len(), from)?;
    let mut steps = 0;
    'levels: while !front.is_last() {
        let level = front.take_next(alloc);
        steps += 1;
        front.pass_level(graph, level.as_slice(), steps)?;
    }
    Ok(front.into_table())
}

/// What chains of steps reach from a node of a graph.
#[derive(Drop)]
pub struct Search<'g> {
    graph: &'g [Sequence<usize>],
    start: usize,
    table: Vec<Option<Discovered>>,
}

impl<'g> Model for Search<'g> {
    ghost use Rattle.kapi_paths.specs.Levels.{IsFoundAt, IsSearched, Searched};

    ghost Value = { Searched };

    ghost view = { λ s. record { graph = s.graph.now; start = s.start; table = s.table.items } };

    ghost invariant = { λ s. IsSearched s.graph.now s.start s.table.items };
}

impl<'g> Search<'g> {
    /// Searches the graph from the node.
    pub fn new(
        alloc: Global,
        graph: &'g [Sequence<usize>],
        start: usize,
    ) -> Result<Search<'g>, Memory>
        requires inside { IsInside graph.now }
        requires start { start < length graph.now }
        ensures graph { IfOk result (λ s. s.graph ≡ graph.now) }
        ensures start { IfOk result (λ s. s.start ≡ start) }
    {
        let table = table(alloc, graph, start)?;
        Ok(Search {
            graph,
            start,
            table,
        })
    }

    /// The node from which it was searched.
    pub fn start(&self) -> usize
        ensures { result ≡ self.now.start }
    {
        self.start
    }

    fn found(&self, node: usize) -> Option<Discovered>
        ensures { result ≡ found_at self.now.table node }
    {
        match self.table.get(node) {
            Some(found) => *found,
            None => None,
        }
    }

    /// Whether chains of steps lead to the node.
    pub fn reaches(&self, node: usize) -> bool
        ensures { result ≡ false → (path : List ℕ) → IsChain self.now.graph self.now.start path node → ⊥ }
    {
        let _ = &self.graph;
        match self.found(node) {
            Some(_found) => true,
            None => false,
        }
    }

    // The node from which a step led to the node.
    fn before(&self, node: usize) -> usize
        ensures { (f : ByWhat) → found_at self.now.table node ≡ Some f → result ≡ f.from }
    {
        match self.found(node) {
            Some(found) => found.from,
            None => node,
        }
    }

    fn way_to(&self, alloc: Global, to: usize, steps: usize) -> Result<Vec<usize>, Memory>
        requires { IsFoundAt self.now.table to steps }
        ensures chain { IfOk result (λ p. IsChain self.now.graph self.now.start p.items to) }
        ensures steps { IfOk result (λ p. length p.items ≡ steps) }
    {
        let _ = &self.graph;
        let mut path = Vec::with_capacity(alloc, steps)?;
        let mut node = to;
        let mut left = steps;
        'back: while left > 0 {
            path.push(node)?;
            node = self.before(node);
            left -= 1;
        }
        path.reverse();
        Ok(path)
    }

    /// The nodes of a shortest chain to the node, the start apart, or none if no chain leads there.
    pub fn path_to(&self, alloc: Global, to: usize) -> Result<Option<Vec<usize>>, Memory>
        ensures chain { IfOk result (λ o. IfSome o (λ p. IsChain self.now.graph self.now.start p.items to)) }
        ensures shortest { IfOk result (λ o. IfSome o (λ p. (path : List ℕ) → IsChain self.now.graph self.now.start path to → length p.items ≤ length path)) }
        ensures none { IfOk result (λ o. IfNone o ((path : List ℕ) → IsChain self.now.graph self.now.start path to → ⊥)) }
    {
        let _ = &self.graph;
        match self.found(to) {
            Some(found) => Ok(Some(self.way_to(alloc, to, found.steps)?)),
            None => Ok(None),
        }
    }
}
