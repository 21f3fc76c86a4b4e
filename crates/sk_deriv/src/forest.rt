//! Forests of derivations.
ghost use Rattle.std.specs.Prelude.{◌≡◌, ◌<◌, [], ◌∷◌, ◌++◌, Some, length, slice_get, IfOk, OnOk, OnErr, All};
ghost use Rattle.sk_deriv.specs.Forest.{IsBelow, ChildrenFirst, tree_at};
ghost use Rattle.sk_deriv.specs.Tree.{height};

use sk_base::{NoMemory, Seq};
use sk_def::HookId;
use sk_value::Tuple;
use std::alloc::Global;
use std::marker::Model;

/// A step of a derivation: a pick, or the place of a subtree.
#[derive(Clone, Copy, Debug, PartialEq, Eq)]
pub enum Step {
    Pick(u32),
    Sub(usize),
}

pub type StepList = Seq<Step>;

/// The root of a derivation in a forest.
#[derive(Drop)]
pub struct Node {
    pub hook: HookId,
    pub point: u16,
    pub ins: Tuple,
    pub steps: StepList,
    pub outs: Tuple,
}

/// Derivations that share subtrees. Contracts see the list of nodes, children before parents.
#[derive(Drop)]
pub struct Forest {
    nodes: Vec<Node>,
}

impl Model for Forest {
    ghost use Rattle.std.specs.Prelude.{List};
    ghost use Rattle.sk_deriv.specs.declared.forest.Node.{Node};
    ghost use Rattle.sk_deriv.specs.Forest.{ChildrenFirst};

    ghost Value = { List Node };

    ghost view = { λ forest. forest.nodes.items };

    ghost invariant = { λ forest. ChildrenFirst forest.nodes.items };
}

impl Forest {
    /// The empty forest.
    pub fn new(alloc: Global) -> Forest
        ensures { result ≡ [] }
    {
        Forest {
            nodes: Vec::new(alloc),
        }
    }

    /// How many nodes there are.
    pub fn len(&self) -> usize
        ensures { result ≡ length self.now }
    {
        self.nodes.len()
    }

    /// The node at a place below the length. Its subtrees stand before it.
    pub fn get(&self, at: usize) -> &Node
        requires { at < length self.now }
        ensures node { slice_get self.now at ≡ Some result.now }
        ensures children { All (IsBelow at) result.now.steps }
        ensures forest { ChildrenFirst self.now }
    {
        &self.nodes[at]
    }

    /// Appends a node whose subtrees are there, and answers its place. Where memory is refused the node is dropped,
    /// and the forest is as before.
    pub fn push(&mut self, node: Node) -> Result<usize, NoMemory>
        requires { All (IsBelow (length self.old)) node.steps }
        ensures place { IfOk result (λ place. place ≡ length self.old) }
        ensures ok { OnOk result (self.new ≡ self.old ++ node ∷ []) }
        ensures err { OnErr result (self.new ≡ self.old) }
    {
        let place = self.nodes.len();
        self.nodes.push(node)?;
        Ok(place)
    }

    /// The height of the derivation of a node that is there.
    pub fn height(&self, node: usize) -> usize
        requires { node < length self.now }
        ensures { result ≡ height (tree_at self.now node) }
    {
        let _count = self.len();
        let mut greatest = 0;
        for step in self.get(node).steps.as_slice() {
            if let Step::Sub(child) = step {
                greatest = greatest.max(self.height(*child));
            }
        }
        greatest + 1
    }
}
