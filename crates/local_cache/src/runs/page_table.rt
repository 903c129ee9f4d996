// Which page has which node.
ghost use Rattle.std.specs.Prelude.{◌≡◌, ℕ, ◌+◌, ◌<◌, ◌≤◌, ◌^◌, None, max, IsOk, IsSome, OnErr, OnOk};
ghost use Rattle.std.specs.FinMap as map;
ghost use Rattle.local_cache.specs.Pages.{HaveNodes, IsShortFor, pages_from, with_pages, without_pages};

use crate::runs::page_number::page_number;
use mixed_map::{Alone, Found, MixedMap, Same};
use std::alloc::Global;
use std::marker::Model;
use stretches::{Rising, Stretch};
use vm_ids::{NoMemory, NodeId, NodeName};

/// The node of a page that stands alone.
#[derive(Clone, Copy)]
pub(crate) struct PageNode {
    node: NodeId,
}

impl Model for PageNode {
    ghost use Rattle.vm_ids.specs.declared.numbers.NodeId.{NodeId};
    ghost use Rattle.local_cache.specs.Codes.{id_code};

    ghost Value = { NodeId };

    ghost coded = { id_code };

    ghost view = { λ p. p.node };

    ghost inverse = { λ n. record { node = n } };
}

impl Same for PageNode {
    ghost same = { λ _ _ same. same };
}

impl Alone<Rising> for PageNode {
    ghost told = { λ v. record { 0 = v.0 } };

    fn from_stretch(_alloc: Global, value: Rising) -> Self {
        PageNode {
            node: NodeId(value.0),
        }
    }
}

/// The nodes of pages, by the numbers of the pages. Pages that follow one another and whose nodes
/// do stand in one stretch. Its model is that of the map.
#[derive(Drop)]
pub(crate) struct PageTable {
    nodes: MixedMap<Rising, PageNode>,
}

impl PageTable {
    // No page has a node.
    pub(crate) fn new(alloc: Global) -> Self
        ensures pages { result.nodes.cells ≡ map.empty }
        ensures count { result.nodes.count ≡ 0 }
        ensures room { result.nodes.room ≡ 0 }
    {
        PageTable {
            nodes: MixedMap::new(alloc),
        }
    }

    // Makes room for so many pages in all. It can fail only where there was less room, and then
    // nothing changes.
    pub(crate) fn reserve(&mut self, total: u32) -> Result<(), NoMemory>
        ensures ok { OnOk result (self.new.nodes
            ≡ record self.old.nodes { room = max self.old.nodes.room total }) }
        ensures err { OnErr result (self.new ≡ self.old) }
        ensures enough { total ≤ self.old.nodes.room → IsOk result }
    {
        self.nodes.reserve(total)?;
        Ok(())
    }

    // The node of a page, or `None` exactly where it has none.
    #[inline(always)]
    pub(crate) fn node_of(&self, page: u64) -> Option<NodeId>
        ensures { result ≡ map.get self.now.nodes.cells page }
    {
        match self.nodes.recent(page) {
            Some(node) => Some(node.node),
            None => self.search(page),
        }
    }

    // What `node_of` tells, wherever the page stands.
    #[inline(never)]
    fn search(&self, page: u64) -> Option<NodeId>
        ensures { result ≡ map.get self.now.nodes.cells page }
    {
        match self.nodes.get(page)? {
            Found::Alone(node) => Some(node.node),
            Found::Told(node) => Some(NodeId(node.0)),
        }
    }

    // Enters so many pages, from one on, which have no nodes: the next one of these is that of the
    // next page.
    pub(crate) fn enter(&mut self, page: u64, count: u32, node: NodeId)
        requires short { page + count < 2 ^ 64 }
        requires nodes { node.0 + count < 2 ^ 64 }
        requires vacant { (k : ℕ) → k < count → map.get self.old.nodes.cells (page + k) ≡ None }
        requires room { self.old.nodes.count + count ≤ self.old.nodes.room }
        ensures pages { self.new.nodes.cells ≡ pages_from self.old.nodes.cells page node count }
        ensures count { self.new.nodes.count ≡ self.old.nodes.count + count }
        ensures room { self.new.nodes.room ≡ self.old.nodes.room }
    {
        self.nodes.insert_stretch(Stretch {
            first: page,
            count,
            value: Rising(node.0),
        });
    }

    // The page of this name and so many in all behind it have no nodes any more. How many they are:
    // a working name is no page's.
    pub(crate) fn leave_named(&mut self, name: NodeName, count: u32) -> u32
        requires held { HaveNodes self.old.nodes.cells name count }
        requires short { IsShortFor name count }
        ensures pages { self.new.nodes.cells ≡ without_pages self.old.nodes.cells name count }
        ensures within { result ≤ count }
        ensures fewer { map.len self.new.nodes.cells + result ≡ map.len self.old.nodes.cells }
        ensures count { self.new.nodes.count + result ≡ self.old.nodes.count }
        ensures room { self.new.nodes.room ≡ self.old.nodes.room }
    {
        match name {
            NodeName::Live(cache, page) => {
                self.nodes.remove_range(page_number(cache, page), count);
                count
            }
            NodeName::Working(_) => 0,
        }
    }

    // The page of this name and so many in all behind it have other nodes: the next one of these is
    // that of the next page. A working name is no page's.
    #[inline(always)]
    pub(crate) fn set_named(&mut self, name: NodeName, count: u32, node: NodeId)
        requires held { HaveNodes self.old.nodes.cells name count }
        requires short { IsShortFor name count }
        requires nodes { 1 < count → node.0 + count < 2 ^ 64 }
        ensures pages { self.new.nodes.cells ≡ with_pages self.old.nodes.cells name node count }
        ensures count { self.new.nodes.count ≡ self.old.nodes.count }
        ensures room { self.new.nodes.room ≡ self.old.nodes.room }
    {
        if let NodeName::Live(cache, page) = name {
            self.set(page_number(cache, page), count, node);
        }
    }

    // So many pages, from one on, which have nodes, have other ones.
    fn set(&mut self, page: u64, count: u32, node: NodeId)
        requires held { (k : ℕ) → k < count → IsSome (map.get self.old.nodes.cells (page + k)) }
        requires short { 1 < count → page + count < 2 ^ 64 }
        requires nodes { 1 < count → node.0 + count < 2 ^ 64 }
        ensures pages { self.new.nodes.cells ≡ pages_from self.old.nodes.cells page node count }
        ensures count { self.new.nodes.count ≡ self.old.nodes.count }
        ensures room { self.new.nodes.room ≡ self.old.nodes.room }
    {
        if count == 1 {
            self.nodes.set(page, PageNode { node });
        } else if count > 1 {
            self.nodes.remove_range(page, count);
            self.enter(page, count, node);
        }
    }
}
