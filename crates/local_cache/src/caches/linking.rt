// Where the own page of a node is, and how nodes hang on each other.
ghost use Rattle.std.specs.Prelude.{◌≡◌, ◌+◌, ◌≤◌, ◌^◌, length, IfSome};
ghost use Rattle.local_cache.specs.Arena.{HasNode, hung, with_own, with_tree, NodesStay};
ghost use Rattle.local_cache.specs.Many.{HaveNodes, IsPlain, hung_many, over_many};
ghost use Rattle.local_cache.specs.ManyNodes.{next_if, next_node};
ghost use Rattle.local_cache.specs.NodeCells.{inheriting, with_before, with_behind, with_child, with_ends, with_place};
ghost use Rattle.local_cache.specs.OnCells.{on_cell, on_cells};

use crate::caches::Caches;
use crate::runs::{
    Adopt, Exchange, Hang, Inherit, SetBefore, SetBehind, SetEnds, SetOwn, SetPlace,
};
use crate::{Ends, OwnState};
use vm_ids::NodeId;

impl Caches {
    /// Sets where a node's own page is.
    #[inline(always)]
    pub fn set_state(&mut self, node: NodeId, state: OwnState)
        requires { HasNode self.old node }
        ensures changed { self.new ≡ with_own self.old node state }
        ensures stays { NodesStay self.old self.new }
    {
        self.nodes.change(node, SetOwn(state));
    }

    /// Sets the stub before a node in its parent's list.
    pub fn set_before(&mut self, node: NodeId, before: Option<NodeId>)
        requires { HasNode self.old node }
        ensures changed { self.new ≡ on_cell self.old node (with_before before) }
        ensures stays { NodesStay self.old self.new }
    {
        self.nodes.change(node, SetBefore(before));
    }

    /// Sets the stub behind a node in its parent's list.
    pub fn set_behind(&mut self, node: NodeId, behind: Option<NodeId>)
        requires { HasNode self.old node }
        ensures changed { self.new ≡ on_cell self.old node (with_behind behind) }
        ensures stays { NodesStay self.old self.new }
    {
        self.nodes.change(node, SetBehind(behind));
    }

    /// Sets the ends of the list of a node's stubs, and their number.
    pub fn set_ends(
        &mut self,
        node: NodeId,
        first: Option<NodeId>,
        last: Option<NodeId>,
        stubs: u32,
    )
        requires { HasNode self.old node }
        ensures changed { self.new ≡ on_cell self.old node
            (with_ends (record { first = first; last = last; stubs = stubs })) }
        ensures stays { NodesStay self.old self.new }
    {
        let ends = Ends { first, last, stubs };
        self.nodes.change(node, SetEnds(ends));
    }

    /// Sets where a node hangs, by which link, and between which neighbours.
    #[inline(always)]
    pub fn set_place(
        &mut self,
        node: NodeId,
        parent: Option<NodeId>,
        by_stub: bool,
        before: Option<NodeId>,
        behind: Option<NodeId>,
    )
        requires { HasNode self.old node }
        ensures changed { self.new ≡ on_cell self.old node
            (with_place parent by_stub before behind) }
        ensures stays { NodesStay self.old self.new }
    {
        let change = SetPlace {
            parent,
            by_stub,
            before,
            behind,
        };
        self.nodes.change(node, change);
    }

    /// Hangs a node on this parent by a tree link, or on none. Nothing is done to the children of
    /// its old and new parent.
    #[inline(always)]
    pub fn hang(&mut self, node: NodeId, parent: Option<NodeId>)
        requires { HasNode self.old node }
        ensures changed { self.new ≡ hung self.old node parent }
        ensures stays { NodesStay self.old self.new }
    {
        self.nodes.change(node, Hang(parent));
    }

    /// Hangs so many nodes, from one on, each on the next parent by a tree link. Nothing is done to
    /// the children of their old and new parents. Those that stand in one run are hung at once.
    pub fn hang_many(&mut self, node: NodeId, count: u32, parent: NodeId)
        requires held { HaveNodes self.old node count }
        requires short { parent.0 + count ≤ 2 ^ 64 }
        ensures changed { self.new ≡ hung_many self.old node parent count }
        ensures stays { NodesStay self.old self.new }
    {
        self.nodes.change_each(node, count, Hang(Some(parent)));
    }

    /// Sets the tree children of a node, of which there are at most two.
    #[inline(always)]
    pub fn set_tree_children(&mut self, node: NodeId, children: &[NodeId])
        requires held { HasNode self.old node }
        requires few { length children.now ≤ 2 }
        ensures changed { self.new ≡ with_tree self.old node children.now }
        ensures stays { NodesStay self.old self.new }
    {
        let change = Adopt::of(children);
        self.nodes.change(node, change);
    }

    /// Among the tree children of each of so many nodes, from one on, the next one of these comes
    /// in the place of the next one that goes, or none. Nothing is done to the children. Those that
    /// stand in one run are changed at once.
    pub fn exchange_many(&mut self, node: NodeId, count: u32, gone: NodeId, instead: Option<NodeId>)
        requires held { HaveNodes self.old node count }
        requires gone { HaveNodes self.old gone count }
        requires instead { IfSome instead (λ n. n.0 + count ≤ 2 ^ 64) }
        ensures changed { self.new ≡ on_cells self.old node
            (λ k. with_child (next_node gone k) (next_if instead k)) count }
        ensures stays { NodesStay self.old self.new }
    {
        let change = Exchange { gone, instead };
        if count == 1 {
            self.nodes.change_there(node, change);
        } else {
            self.nodes.change_each(node, count, change);
        }
    }

    /// Hangs so many nodes, from one on, each on the next parent by a tree link, or on none, and
    /// gives those of them that have no own page this one. Nothing is done to the children of their
    /// old and new parents.
    pub fn inherit_many(
        &mut self,
        node: NodeId,
        count: u32,
        state: OwnState,
        parent: Option<NodeId>,
    )
        requires held { HaveNodes self.old node count }
        requires plain { IsPlain state }
        requires short { IfSome parent (λ p. p.0 + count ≤ 2 ^ 64) }
        ensures changed { self.new ≡ on_cells self.old node
            (λ k. inheriting state (next_if parent k)) count }
        ensures stays { NodesStay self.old self.new }
    {
        let change = Inherit { own: state, parent };
        self.nodes.change_each(node, count, change);
    }

    /// Gives each of so many nodes, from one on, the next node as its only tree child. Nodes of
    /// pages that stand in one run get theirs at once.
    pub fn adopt_many(&mut self, node: NodeId, count: u32, child: NodeId)
        requires held { HaveNodes self.old node count }
        requires short { child.0 + count ≤ 2 ^ 64 }
        ensures changed { self.new ≡ over_many self.old node child count }
        ensures stays { NodesStay self.old self.new }
    {
        let change = Adopt {
            older: Some(child),
            newer: None,
        };
        self.nodes.change_each(node, count, change);
    }
}
