// The page forest in its plainest form, rule by rule. It knows which nodes have a page of their
// own, and no bytes.
use std::alloc::Global;
use vm_ids::{CacheId, NoMemory, NodeName, PageNo};

// A node is told by its place in the list of nodes, where it stays. Its name is `None` once it is
// gone.
#[derive(Clone, Copy)]
struct Node {
    name: Option<NodeName>,
    owns: bool,
}

// A node hangs on its parent, as a tree child or as a stub.
#[derive(Clone, Copy)]
struct Link {
    parent: usize,
    child: usize,
    by_stub: bool,
}

// The links of one parent and one kind stand in the order of its list.
#[derive(Drop)]
pub(super) struct PageForest {
    nodes: Vec<Node>,
    links: Vec<Link>,
    made: u64,
    copies: u64,
}

fn live(cache: CacheId, page: u32) -> NodeName {
    NodeName::Live(cache, PageNo(page))
}

impl PageForest {
    pub fn new(alloc: Global) -> PageForest {
        PageForest {
            nodes: Vec::new(alloc),
            links: Vec::new(alloc),
            made: 0,
            copies: 0,
        }
    }

    fn add(&mut self, name: NodeName, owns: bool) -> Result<usize, NoMemory> {
        let node = self.nodes.len();
        self.nodes.push(Node {
            name: Some(name),
            owns,
        })?;
        Ok(node)
    }

    // The node of a page. Where there is none it is a number that no node has.
    pub fn node_of(&self, cache: CacheId, page: u32) -> usize {
        let name = Some(live(cache, page));
        self.nodes
            .iter()
            .position(|node| node.name == name)
            .unwrap_or(usize::MAX)
    }

    pub fn owns(&self, node: usize) -> bool {
        match self.nodes.get(node) {
            Some(node) => node.owns,
            None => false,
        }
    }

    fn gets_page(&mut self, node: usize) {
        if let Some(node) = self.nodes.get_mut(node) {
            node.owns = true;
        }
    }

    fn rename(&mut self, node: usize, name: Option<NodeName>) {
        if let Some(node) = self.nodes.get_mut(node) {
            node.name = name;
        }
    }

    // The place of a node's link to its parent.
    fn link_of(&self, node: usize) -> Option<usize> {
        self.links.iter().position(|link| link.child == node)
    }

    // The place of a node's link to its first child of a kind.
    fn first_link(&self, node: usize, by_stub: bool) -> Option<usize> {
        self.links
            .iter()
            .position(|link| link.parent == node && link.by_stub == by_stub)
    }

    fn child_at(&self, place: Option<usize>) -> Option<usize> {
        Some(self.links.get(place?)?.child)
    }

    fn children(&self, node: usize) -> usize {
        self.links.iter().filter(|link| link.parent == node).count()
    }

    fn take_link(&mut self, place: usize) -> Option<Link> {
        if place < self.links.len() {
            Some(self.links.remove(place))
        } else {
            None
        }
    }

    // Takes a node out of its parent's list. With `stub_alone` it stays where it is a tree child.
    fn unhang(&mut self, node: usize, stub_alone: bool) {
        if let Some(place) = self.link_of(node) {
            if let Some(link) = self.links.get(place) {
                if link.by_stub || !stub_alone {
                    self.take_link(place);
                }
            }
        }
    }

    // A page of a cache that is made.
    pub fn make(&mut self, cache: CacheId, page: u32) -> Result<(), NoMemory> {
        self.add(live(cache, page), true)?;
        Ok(())
    }

    // A node that has no page of its own gets one.
    pub fn own(&mut self, node: usize) {
        if !self.owns(node) {
            self.gets_page(node);
            self.unhang(node, true);
            self.copies = self.copies.saturating_add(1);
        }
    }

    fn heir(&self, node: usize) -> Option<usize> {
        match self.child_at(self.first_link(node, false)) {
            Some(child) if !self.owns(child) => Some(child),
            _ => self.child_at(self.first_link(node, true)),
        }
    }

    // The heir of a node gets its page, and the stubs that are left behind its own. False where
    // nobody is the heir.
    pub fn heir_gets(&mut self, node: usize) -> Result<bool, NoMemory> {
        let Some(heir) = self.heir(node) else {
            return Ok(false);
        };
        self.own(heir);
        for _ in 0..self.links.len() {
            if let Some(place) = self.first_link(node, true) {
                if let Some(link) = self.take_link(place) {
                    self.links.push(Link {
                        parent: heir,
                        ..link
                    })?;
                }
            }
        }
        Ok(true)
    }

    // What becomes of the node of a page that is given up: it goes, or is a working node where it
    // has children.
    pub fn retire(&mut self, node: usize) {
        if self.children(node) == 0 {
            self.unhang(node, false);
            self.rename(node, None);
        } else {
            self.made = self.made.saturating_add(1);
            self.rename(node, Some(NodeName::Working(self.made)));
        }
    }

    // A page gets a fresh node.
    pub fn detach(&mut self, cache: CacheId, page: u32, owns: bool) -> Result<usize, NoMemory> {
        self.retire(self.node_of(cache, page));
        self.add(live(cache, page), owns)
    }

    fn hang(&mut self, child: usize, parent: usize, by_stub: bool) -> Result<(), NoMemory> {
        self.links.push(Link {
            parent,
            child,
            by_stub,
        })?;
        Ok(())
    }

    // A fresh node is the last stub of another one.
    pub fn stub(&mut self, node: usize, source: usize) -> Result<(), NoMemory> {
        self.hang(node, source, true)
    }

    // A fresh node is the tree child of another one, or shares a working node there with the tree
    // child that it has.
    pub fn link(&mut self, node: usize, source: usize) -> Result<(), NoMemory> {
        let place = self.first_link(source, false);
        let Some(history) = self.child_at(place) else {
            return self.hang(node, source, false);
        };
        self.made = self.made.saturating_add(1);
        let working = self.add(NodeName::Working(self.made), false)?;
        self.puts_in_place(history, working);
        self.hang(history, working, false)?;
        self.hang(node, working, false)
    }

    // Another node hangs where this one did.
    fn puts_in_place(&mut self, node: usize, other: usize) {
        if let Some(place) = self.link_of(node) {
            if let Some(link) = self.links.get_mut(place) {
                link.child = other;
            }
        }
    }

    // A page's node becomes that of another page, which was given up, and leaves a page of zeros.
    pub fn move_page(
        &mut self,
        (from, from_page): (CacheId, u32),
        (to, to_page): (CacheId, u32),
    ) -> Result<(), NoMemory> {
        self.retire(self.node_of(to, to_page));
        self.rename(self.node_of(from, from_page), Some(live(to, to_page)));
        self.make(from, from_page)
    }

    // The working node of the least number that has fewer than two children.
    fn thin(&self) -> Option<usize> {
        let mut least = u64::MAX;
        let mut thin = None;
        for (place, node) in self.nodes.iter().enumerate() {
            if let Some(NodeName::Working(number)) = node.name {
                if number < least && self.children(place) < 2 {
                    least = number;
                    thin = Some(place);
                }
            }
        }
        thin
    }

    // A working node goes, and its child, where it has one, gets its page and its place.
    fn give_way(&mut self, node: usize) {
        let child = self.links.iter().position(|link| link.parent == node);
        match child.and_then(|place| self.take_link(place)) {
            Some(link) => {
                if self.owns(node) {
                    self.gets_page(link.child);
                }
                self.puts_in_place(node, link.child);
                if self.owns(link.child) {
                    self.unhang(link.child, true);
                }
            }
            None => self.unhang(node, false),
        }
        self.rename(node, None);
    }

    pub fn settle(&mut self) {
        for _ in 0..self.nodes.len() {
            if let Some(node) = self.thin() {
                self.give_way(node);
            }
        }
    }

    fn parent(&self, node: usize) -> usize {
        match self.link_of(node).and_then(|place| self.links.get(place)) {
            Some(link) => link.parent,
            None => usize::MAX,
        }
    }

    // What `chain` tells of a page.
    pub fn chain(&self, alloc: Global, cache: CacheId, page: PageNo) -> Result<String, NoMemory> {
        let mut text = String::new(alloc);
        text.push_str("chain")?;
        let mut place = self.node_of(cache, page.0);
        for _ in 0..self.nodes.len() {
            let Some(node) = self.nodes.get(place) else {
                return Ok(text);
            };
            let name = match node.name {
                Some(NodeName::Live(cache, page)) => format!(in alloc; " c{}:{}", cache.0, page.0)?,
                Some(NodeName::Working(number)) => format!(in alloc; " w{number}")?,
                None => String::new(alloc),
            };
            let children = format!(in alloc; "+{}", self.children(place))?;
            text.push_str(name.as_str())?;
            text.push_str(children.as_str())?;
            if node.owns {
                text.push_str("*")?;
                return Ok(text);
            }
            place = self.parent(place);
        }
        Ok(text)
    }

    // What `stat` tells.
    pub fn stat(&self, alloc: Global) -> Result<String, NoMemory> {
        let mut live = 0usize;
        let mut working = 0usize;
        for node in &self.nodes {
            match node.name {
                Some(NodeName::Live(_, _)) => live = live.saturating_add(1),
                Some(NodeName::Working(_)) => working = working.saturating_add(1),
                None => (),
            }
        }
        let copies = self.copies;
        Ok(format!(in alloc; "stat live {live} working {working} copies {copies}")?)
    }
}
