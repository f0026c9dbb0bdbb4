ghost use Rattle.std.specs.Prelude.{◌≡◌, ◌<◌, List, [], length};
ghost use Rattle.sw_tree_arena.specs.Nodes.{AreBelow, LaysIn, node_work, work_at};
ghost use Rattle.sw_types.specs.declared.shape.Shape.{Shape};

use crate::node::Node;
use std::alloc::{AllocError, Global};
use std::marker::Model;
use sw_list::ListOf;

/// Nodes by number, each of which names nodes before it. Contracts see them as their list.
#[derive(Drop)]
pub struct Arena {
    nodes: ListOf<Node>,
}

impl Model for Arena {
    ghost use Rattle.std.specs.Prelude.{List};
    ghost use Rattle.sw_tree_arena.specs.Nodes.{AreInOrder};
    ghost use Rattle.sw_tree_arena.specs.declared.node.Node.{Node};

    ghost Value = { List Node };

    ghost view = { λ a. a.nodes };

    ghost invariant = { λ a. AreInOrder a.nodes };
}

impl Arena {
    /// No nodes.
    #[tactic(auto, using(crate::proofs::Growing::none_in_order))]
    pub fn new(alloc: Global) -> Arena
        ensures { result ≡ [] }
    {
        Arena {
            nodes: ListOf::new(alloc),
        }
    }

    /// Adds a node, and gives its number.
    #[tactic(auto, using(crate::proofs::Growing::one_more_in_order))]
    pub fn put(&mut self, node: Node) -> Result<usize, AllocError>
        requires { AreBelow (length self.old) node }
        ensures { (shapes : List Shape) → LaysIn shapes self.old self.new result
            (node_work shapes (work_at shapes self.old) node) }
    {
        let number = self.nodes.len();
        self.nodes.push(node)?;
        Ok(number)
    }

    /// The node with a number.
    pub fn node(&self, number: usize) -> &Node
        requires { number < length self.now }
        ensures below { AreBelow number result.now }
        ensures is { (shapes : List Shape) → work_at shapes self.now number
            ≡ node_work shapes (work_at shapes self.now) result.now }
    {
        self.nodes.at(number)
    }
}
