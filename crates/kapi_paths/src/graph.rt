//! The graph of who can become whom, its nodes numbered.
ghost use Rattle.std.specs.Prelude.{◌≡◌, ◌⊎◌, ◌<◌, ◌∷◌, [], length, map, IfOk, OnOk};
ghost use Rattle.std.specs.List.{slice_get};
ghost use Rattle.kapi_paths.specs.Chains.{Has};
ghost use Rattle.kapi_paths.specs.Graphs.{AreAt, Begins, IsGraph, next_of};
ghost use Rattle.kapi_paths.specs.Numbers.{IsOnce};
ghost use Rattle.kapi_paths.specs.Rights.{row_of};
ghost use Rattle.kapi_paths.specs.Steps.{everything};
ghost use Rattle.kapi_paths.specs.declared.node.Node.{Node as Who};

use crate::node::{Node, NodeKind, push_node};
use crate::steps::{Question, next};
use kapi_policy::Policy;
use kapi_text::{Memory, Sequence, TryCopy};
use std::alloc::Global;
use std::collections::BTreeMap;
use std::marker::Model;

/// Nodes, each at its number.
#[derive(Drop)]
pub struct Numbered {
    nodes: Vec<Node>,
    numbers: BTreeMap<Node, usize>,
}

impl Model for Numbered {
    ghost use Rattle.std.specs.Prelude.{List};
    ghost use Rattle.kapi_paths.specs.declared.node.Node.{Node as Who};
    ghost use Rattle.kapi_paths.specs.Numbers.{AreNumbers};

    ghost Value = { List Who };

    ghost view = { λ n. n.nodes.items };

    ghost invariant = { λ n. AreNumbers n.numbers n.nodes.items };
}

impl Numbered {
    /// Everything alone, at number 0.
    pub fn of_everything(alloc: Global) -> Result<Numbered, Memory>
        ensures { IfOk result (λ n. n ≡ everything ∷ []) }
    {
        let mut nodes = Vec::new(alloc);
        push_node(alloc, &mut nodes, NodeKind::Everything, "", "")?;
        let mut numbers = BTreeMap::new(alloc);
        numbers.insert(nodes[0].copy(alloc)?, 0)?;
        Ok(Numbered { nodes, numbers })
    }

    fn len(&self) -> usize
        ensures count { result ≡ length self.now }
        ensures once { IsOnce self.now }
    {
        let _ = &self.numbers;
        self.nodes.len()
    }

    fn node(&self, number: usize) -> &Node
        requires { number < length self.now }
        ensures { slice_get self.now number ≡ Some result.now }
    {
        &self.nodes[number]
    }

    /// The nodes in the order of their numbers.
    pub fn nodes(&self) -> &[Node]
        ensures { result.now ≡ self.now }
    {
        self.nodes.as_slice()
    }

    fn number(&mut self, alloc: Global, node: Node) -> Result<usize, Memory>
        ensures at { IfOk result (λ n. slice_get self.new n ≡ Some node) }
        ensures more { OnOk result (Begins self.old self.new) }
        ensures came { OnOk result ((x : Who) → Has self.new x → Has self.old x ⊎ (node ≡ x)) }
    {
        if let Some(number) = self.numbers.get(&node) {
            return Ok(*number);
        }
        let number = self.nodes.len();
        self.nodes.reserve(1)?;
        self.numbers.insert(node.copy(alloc)?, number)?;
        self.nodes.push_reserved(node);
        Ok(number)
    }

    /// The numbers of nodes.
    pub fn row(&mut self, alloc: Global, nodes: Vec<Node>) -> Result<Vec<usize>, Memory>
        ensures at { IfOk result (λ row. AreAt self.new row.items nodes.items) }
        ensures more { OnOk result (Begins self.old self.new) }
        ensures came { OnOk result ((x : Who) → Has self.new x → Has self.old x ⊎ Has nodes.items x) }
    {
        let mut row = Vec::new(alloc);
        for node in nodes {
            row.push(self.number(alloc, node)?)?;
        }
        Ok(row)
    }
}

/// The rows of the graph that those nodes begin, and numbers of all its nodes.
pub fn rows<P: Policy>(
    alloc: Global,
    asked: &Question<'_, P>,
    numbered: &mut Numbered,
) -> Result<Vec<Sequence<usize>>, Memory>
    ensures rows { IfOk result (λ rows. IsGraph (next_of (P.content asked.now.policy.now) asked.now.bindings.now asked.now.known.now (map row_of asked.now.rights.now)) numbered.new rows.items) }
    ensures more { OnOk result (Begins numbered.old numbered.new) }
{
    let mut rows = Vec::new(alloc);
    'rows: while rows.len() < numbered.len() {
        let nodes = next(alloc, asked, numbered.node(rows.len()))?;
        let row = numbered.row(alloc, nodes)?;
        rows.push(Sequence::new(row))?;
    }
    Ok(rows)
}
