// What is asked of several page nodes.
ghost use Rattle.std.specs.Prelude.{◌≡◌, ◌↔◌, ℕ, ◌+◌, ◌<◌, ◌≤◌, ◌^◌, None, true, is_some, IfSome, IsSome, IsTrue, MatchOption, slice_get};
ghost use Rattle.std.specs.FinMap as map;
ghost use Rattle.stretches.specs.Stretches.{said};
ghost use Rattle.vm_ids.specs.declared.node_name.NodeName.TheVariants.{Live};
ghost use Rattle.local_cache.specs.Looking.{AreAllMembers, IsInRow, IsOnWay, IsOwner};
ghost use Rattle.local_cache.specs.Many.{CanBeAlike};
ghost use Rattle.local_cache.specs.NodeCells.{HasCell, cell_at, is_page, run_cell};
ghost use Rattle.local_cache.specs.ManyNodes.{next_if};
ghost use Rattle.local_cache.specs.NodeTable.{AreSaidAlike, IsSayable};
ghost use Rattle.local_cache.specs.PageNodes.{name_behind};
ghost use Rattle.local_cache.specs.Runs.{run};

use crate::runs::pieces::numbers_from;
use crate::runs::{NodeTable, Run, Single};
use stretches::Stretch;
use vm_ids::{CacheId, NodeId, NodeName, PageNo};

// How many nodes of one run are alike.
fn alike_of(nodes: Stretch<Run>) -> u32
    requires { 0 < nodes.count }
    ensures within { result ≤ nodes.count }
    ensures parent { IfSome nodes.value.parent (λ n. n.0 + result ≤ 2 ^ 64) }
    ensures older { IfSome nodes.value.older (λ n. n.0 + result ≤ 2 ^ 64) }
    ensures newer { IfSome nodes.value.newer (λ n. n.0 + result ≤ 2 ^ 64) }
    ensures some { 0 < result }
{
    let parents = numbers_from(nodes.value.parent, nodes.count);
    let older = numbers_from(nodes.value.older, parents);
    numbers_from(nodes.value.newer, older)
}

// A node that stands alone is alike by itself, if a run can say all of it.
#[inline(always)]
fn alike_alone(single: &Single) -> u32
    ensures none { result ≡ 0 → CanBeAlike single.now → ⊥ }
    ensures one { 0 < result → (result ≡ 1) × IsSayable single.now }
{
    if single.is_alike() { 1 } else { 0 }
}

// Where a way up ends: at a node with an own page, or at the next one to be looked at.
#[derive(Clone, Copy)]
enum Way {
    Owner(u64),
    On(u64),
}

// What is asked of each node of a row.
#[derive(Clone, Copy)]
struct Member {
    name: NodeName,
    child: Option<NodeId>,
    has_two: bool,
    // so many stand in one run
    count: u32,
}

// What is asked of a node that stands alone.
fn member_alone(single: &Single) -> Member
    ensures one { result.count ≡ 1 }
    ensures name { result.name ≡ single.now.name }
    ensures child { result.child ≡ slice_get single.now.tree 0 }
    ensures two { result.has_two ≡ is_some (slice_get single.now.tree 1) }
{
    Member {
        name: single.name(),
        child: single.tree_child(0),
        has_two: single.tree_child(1).is_some(),
        count: 1,
    }
}

// What is asked of the nodes of one run, as far as there are numbers behind the first tree child.
fn member_of(nodes: Stretch<Run>) -> Member
    requires { 0 < nodes.count }
    ensures some { 0 < result.count }
    ensures within { result.count ≤ nodes.count }
    ensures short { IfSome result.child (λ n. n.0 + result.count ≤ 2 ^ 64) }
    ensures name { result.name ≡ (run_cell nodes.value).name }
    ensures child { result.child ≡ slice_get (run_cell nodes.value).tree 0 }
    ensures two { result.has_two ≡ is_some (slice_get (run_cell nodes.value).tree 1) }
{
    let child = nodes.value.tree_child(0);
    Member {
        name: nodes.value.name.first(),
        child,
        has_two: nodes.value.tree_child(1).is_some(),
        count: numbers_from(child, nodes.count),
    }
}

// Whether a name is that of the page so many behind one.
fn is_page_behind(name: NodeName, cache: CacheId, page: PageNo, by: u32) -> bool
    ensures { IsTrue result ↔ (name ≡ name_behind (Live cache page) by) }
{
    match name {
        NodeName::Live(of, at) => of.0 == cache.0 && at.0 as u64 == page.0 as u64 + by as u64,
        NodeName::Working(_) => false,
    }
}

// Whether a node is the one so many behind another one; or neither is there.
fn is_node_behind(node: Option<NodeId>, first: Option<NodeId>, by: u32) -> bool
    ensures { IsTrue result ↔ (node ≡ next_if first by) }
{
    match (node, first) {
        (Some(node), Some(first)) => node.0 >= first.0 && node.0 - first.0 == by as u64,
        (None, None) => true,
        _ => false,
    }
}

impl NodeTable {
    // How many nodes from this one on are alike: one run says all of them, each a step further on
    // than the one before. There is none only where a run can't say all of this node.
    #[inline(always)]
    pub(crate) fn stretch(&self, node: u64) -> u32
        requires { HasCell self.now.cells node }
        ensures alike { AreSaidAlike self.now.cells node result }
        ensures some { CanBeAlike (cell_at self.now.cells node) → 0 < result }
    {
        match self.nodes.recent(node) {
            Some(single) => alike_alone(single),
            None => self.count_from(node),
        }
    }

    // How many nodes from one on are alike, wherever it stands.
    #[inline(never)]
    fn count_from(&self, node: u64) -> u32
        requires { HasCell self.now.cells node }
        ensures alike { AreSaidAlike self.now.cells node result }
        ensures some { CanBeAlike (cell_at self.now.cells node) → 0 < result }
    {
        match self.nodes.place(node) {
            Some(place) => alike_alone(self.nodes.at(place)),
            None => alike_of(self.run_from(node)),
        }
    }

    // What is asked of a node and of those that stand in one run with it, from it on; or `None`
    // exactly where there is no node.
    fn member(&self, node: u64) -> Option<Member>
        ensures { MatchOption result (map.get self.now.cells node ≡ None)
            (AreAllMembers self.now.cells node) }
    {
        match self.nodes.place(node) {
            Some(place) => Some(member_alone(self.nodes.at(place))),
            None => self.member_told(node),
        }
    }

    // What `member` tells, of a node that doesn't stand alone.
    fn member_told(&self, node: u64) -> Option<Member>
        requires { IsSome (map.get self.now.cells node)
            → IsSome (said run self.now.list node) }
        ensures { MatchOption result (map.get self.now.cells node ≡ None)
            (AreAllMembers self.now.cells node) }
    {
        match self.nodes.stretch_from(node) {
            Some(nodes) => Some(member_of(nodes)),
            None => None,
        }
    }

    // How many nodes, from one of a page on, are in a row, as far as so many: their numbers follow
    // one another, and so do the pages that they are of and their only tree children, if they have
    // some. There is none where the first one has two tree children.
    pub(crate) fn row_from(&self, first: u64, most: u32) -> u32
        requires held { HasCell self.now.cells first }
        requires short { first + most < 2 ^ 64 }
        ensures row { (k : ℕ) → k < result → IsInRow self.now.cells first k }
        ensures within { result ≤ most }
        ensures some { 0 < most → is_page (cell_at self.now.cells first).name ≡ true
            → slice_get (cell_at self.now.cells first).tree 1 ≡ None → 0 < result }
    {
        let Some(start) = self.member(first) else {
            return 0;
        };
        let NodeName::Live(cache, page) = start.name else {
            return 0;
        };
        if start.has_two {
            return 0;
        }
        let mut count = start.count.min(most);
        while count < most {
            let Some(next) = self.member(first + count as u64) else {
                return count;
            };
            if next.has_two
                || !is_page_behind(next.name, cache, page, count)
                || !is_node_behind(next.child, start.child, count)
            {
                return count;
            }
            count += next.count.min(most - count);
        }
        count
    }

    // The first node with an own page on the way up from a node.
    pub(crate) fn owner_from(&self, first: u64) -> NodeId
        requires { (owner : ℕ) × IsOwner self.now.cells first owner }
        ensures { IsOwner self.now.cells first result.0 }
    {
        let mut node = first;
        while let Some(single) = self.nodes.recent(node) {
            if !single.own().is_absent() {
                return NodeId(node);
            }
            node = single.parent().unwrap().0;
        }
        self.search_owner(node)
    }

    // What `owner_from` tells, wherever the nodes stand.
    #[inline(never)]
    fn search_owner(&self, first: u64) -> NodeId
        requires { (owner : ℕ) × IsOwner self.now.cells first owner }
        ensures { IsOwner self.now.cells first result.0 }
    {
        let mut node = first;
        loop {
            match self.nodes.place(node) {
                Some(place) => {
                    let single = self.nodes.at(place);
                    if !single.own().is_absent() {
                        return NodeId(node);
                    }
                    node = single.parent().unwrap().0;
                }
                None => match self.way_up(node) {
                    Way::Owner(owner) => return NodeId(owner),
                    Way::On(next) => node = next,
                },
            }
        }
    }

    // The way up from a node that stands in a run, as long as each next node stands in a run right
    // beside that of the one before.
    fn way_up(&self, first: u64) -> Way
        requires owner { (owner : ℕ) × IsOwner self.now.cells first owner }
        requires told { IsSome (said run self.now.list first) }
        ensures { IsOnWay self.now.cells first result }
    {
        let nodes = self.run_from(first);
        if !nodes.value.own.is_absent() {
            return Way::Owner(first);
        }
        let mut node = nodes.value.parent.unwrap().0;
        while let Some(nodes) = self.nodes.stretch_beside(node) {
            if !nodes.value.own.is_absent() {
                return Way::Owner(node);
            }
            let before = (node - nodes.first) as u32;
            node = nodes.value.parent_after(before).unwrap().0;
        }
        Way::On(node)
    }
}
