// A one-to-one map between page nodes and page frames.
ghost use Rattle.std.specs.Prelude.{◌≡◌, ◌≤◌, ◌<◌, ◌^◌, length, None, Some, replicate, slice_set, position, IfOk, MatchOption};
ghost use Rattle.global_map.specs.Pairs.{bound_times, frame_of, hashes_of, is_node, node_of};

use probe_table::{ProbeTable, hash};
use std::alloc::Global;
use std::marker::Model;
use vm_ids::{FrameId, NoMemory, NodeId};

/// Which node is in each frame.
#[derive(Drop)]
pub struct GlobalMap {
    nodes: Vec<Option<NodeId>>,
    // The number of each frame to which a node is bound, under the hash of the node.
    table: ProbeTable,
}

impl Model for GlobalMap {
    ghost use Rattle.std.specs.Prelude.{List, Option};
    ghost use Rattle.vm_ids.specs.declared.numbers.NodeId.{NodeId};

    ghost Value = { List (Option NodeId) };

    ghost use Rattle.global_map.specs.Pairs.{IsIndexed};

    ghost view = { λ m. m.nodes.items };

    ghost invariant = { λ m. IsIndexed m.nodes.items m.table };
}

fn is_at(entry: &Option<NodeId>, node: NodeId) -> bool
    ensures { result ≡ is_node node.0 entry.now }
{
    match entry {
        Some(other) => other.0 == node.0,
        None => false,
    }
}

// Where a node stands.
fn place_of(nodes: &[Option<NodeId>], table: &ProbeTable, node: NodeId) -> Option<usize>
    requires table { table.now ≡ hashes_of nodes.now }
    requires once { bound_times nodes.now node.0 ≤ 1 }
    ensures { result ≡ position (is_node node.0) nodes.now }
{
    let frame = table.find(hash(node.0), |frame| is_at(&nodes[frame as usize], node))?;
    Some(frame as usize)
}

impl GlobalMap {
    /// A map of so many frames, all unbound.
    pub fn new(alloc: Global, frames: u32) -> Result<GlobalMap, NoMemory>
        requires { frames ≤ 2 ^ 16 }
        ensures { IfOk result (λ m. m ≡ replicate frames None) }
    {
        let table = ProbeTable::new(alloc, frames)?;
        let mut nodes = Vec::new(alloc);
        nodes.resize(frames as usize, None)?;
        Ok(GlobalMap { nodes, table })
    }

    /// The node that is bound to a frame. `None` exactly where none is.
    pub fn node_at(&self, frame: FrameId) -> Option<NodeId>
        requires { frame.0 < length self.now }
        ensures { result ≡ node_of self.now frame.0 }
    {
        self.nodes[frame.0 as usize]
    }

    /// The frame to which a node is bound. `None` exactly where it is bound to none.
    pub fn get(&self, node: NodeId) -> Option<FrameId>
        ensures found { MatchOption result (bound_times self.now node.0 ≡ 0)
            (λ frame. (frame.0 < length self.now) × (node_of self.now frame.0 ≡ Some node)) }
        ensures once { bound_times self.now node.0 ≤ 1 }
    {
        let at = place_of(&self.nodes, &self.table, node)?;
        Some(FrameId(at as u32))
    }

    /// Binds an unbound node to an unbound frame.
    pub fn bind(&mut self, node: NodeId, frame: FrameId)
        requires frame { frame.0 < length self.old }
        requires free { node_of self.old frame.0 ≡ None }
        requires node { bound_times self.old node.0 ≡ 0 }
        ensures { self.new ≡ slice_set self.old frame.0 (Some node) }
    {
        self.nodes[frame.0 as usize] = Some(node);
        self.table.enter(frame.0, hash(node.0));
    }

    /// Unbinds a bound node from its frame.
    pub fn unbind(&mut self, node: NodeId)
        requires { bound_times self.old node.0 ≡ 1 }
        ensures { self.new ≡ slice_set self.old (frame_of self.old node.0) None }
    {
        let at = place_of(&self.nodes, &self.table, node).unwrap();
        self.nodes[at] = None;
        self.table.remove(at as u32);
    }

    /// Binds the unbound node `to` in place of the bound node `from`.
    pub fn rekey(&mut self, from: NodeId, to: NodeId)
        requires from { bound_times self.old from.0 ≡ 1 }
        requires to { bound_times self.old to.0 ≡ 0 }
        ensures { self.new ≡ slice_set self.old (frame_of self.old from.0) (Some to) }
    {
        let at = place_of(&self.nodes, &self.table, from).unwrap();
        self.nodes[at] = Some(to);
        let frame = at as u32;
        self.table.remove(frame);
        self.table.enter(frame, hash(to.0));
    }
}
