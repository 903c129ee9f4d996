// The page nodes by their numbers: those that are alike as runs, and each other one as a single.
ghost use Rattle.std.specs.Prelude.{◌≡◌, ◌≢◌, ℕ, ◌+◌, ◌<◌, ◌≤◌, [], true, None, Some, max, length, IsOk, IsSome, OnErr, OnOk};
ghost use Rattle.std.specs.FinMap as map;
ghost use Rattle.stretches.specs.Changes.{SayNoMore};
ghost use Rattle.stretches.specs.Stretch.{IsFit, is_in};
ghost use Rattle.stretches.specs.Stretches.{AreTogether, said};
ghost use Rattle.mixed_map.specs.Mixed.{IsStretchFrom, Tells, with_stretch, without_stretch};
ghost use Rattle.mixed_map.specs.Place.{IsPlace};
ghost use Rattle.local_cache.specs.Arena.{new_cell};
ghost use Rattle.local_cache.specs.NodeCells.{HasCell, cell_at, changed, run_cell};
ghost use Rattle.local_cache.specs.NodeTable.{HasFreeNumber, HaveFreeNumbers, IsLeastThin, SeesSame};
ghost use Rattle.local_cache.specs.Runs.{run};

use crate::OwnState;
use crate::runs::thin_nodes::{FirstThin, is_same_number};
use crate::runs::{Change, Run, Single, ThinNodes};
use mixed_map::{Alone, MixedMap, Place};
use std::alloc::Global;
use std::marker::Model;
use stretches::{Says, Stretch};
use vm_ids::{NoMemory, NodeId, NodeName};

/// The page nodes by their numbers, and the thin ones among them by their working numbers.
///
/// Its model is that of the map: the cell of each node, the slots of those that stand alone, the
/// runs of the others, how many nodes there are, and for how many there is room.
#[derive(Drop)]
pub(crate) struct NodeTable {
    pub(crate) nodes: MixedMap<Run, Single>,
    thin: ThinNodes,
    // what singles are made with, which take no memory of it
    alloc: Global,
}

impl Model for NodeTable {
    ghost use Rattle.mixed_map.specs.Mixed.{Mixed};
    ghost use Rattle.local_cache.specs.Arena.{Cell};
    ghost use Rattle.local_cache.specs.Codes.{node_table_code};
    ghost use Rattle.local_cache.specs.NodeTable.{IsTableRight};
    ghost use Rattle.local_cache.specs.declared.runs.run.Run.{Run};

    ghost Value = { Mixed Run Cell };

    ghost coded = { node_table_code };

    ghost view = { λ t. t.nodes };

    ghost invariant = { λ t. IsTableRight t.nodes t.thin };
}

impl NodeTable {
    // No node, and no memory for one.
    pub(crate) fn new(alloc: Global) -> Self
        ensures { result ≡ record {
          cells = map.empty;
          slots = map.empty;
          list = [];
          count = 0;
          room = 0;
        } }
    {
        NodeTable {
            nodes: MixedMap::new(alloc),
            thin: ThinNodes::new(alloc),
            alloc,
        }
    }

    // Makes room for so many nodes in all. It can fail only where there was less room, and then
    // nothing changes.
    pub(crate) fn reserve(&mut self, total: u32) -> Result<(), NoMemory>
        ensures ok { OnOk result (self.new ≡ record self.old { room = max self.old.room total }) }
        ensures err { OnErr result (self.new ≡ self.old) }
        ensures enough { total ≤ self.old.room → IsOk result }
    {
        self.thin.reserve(total)?;
        self.nodes.reserve(total)?;
        Ok(())
    }

    // What is left of the run of a node that stands in one, from this node on.
    pub(crate) fn run_from(&self, node: u64) -> Stretch<Run>
        requires { IsSome (said run self.now.list node) }
        ensures from { IsStretchFrom run run_cell self.now.cells node result }
        ensures together { AreTogether self.now.list result.first result.count }
    {
        match self.nodes.stretch_from(node) {
            Some(nodes) => nodes,
            None => unreachable!(),
        }
    }

    // How many runs there are.
    pub(crate) fn runs(&self) -> usize
        ensures { result ≡ length self.now.list }
    {
        self.nodes.stretch_count()
    }

    // The thin node with the least working number.
    pub(crate) fn thin(&self) -> Option<NodeId>
        ensures { IsLeastThin self.now.cells result }
    {
        match self.thin.first() {
            None => None,
            Some(FirstThin::Alone(slot)) => Some(NodeId(self.nodes.place_of(slot).number)),
            Some(FirstThin::Among(node)) => Some(NodeId(node)),
        }
    }

    // The place of a node, which is taken out of its run if it stands in one.
    #[inline(always)]
    fn single(&mut self, node: u64) -> Place
        requires { HasCell self.old.cells node }
        ensures same { SeesSame self.old self.new }
        ensures place { (result.number ≡ node) × IsPlace self.new.slots result }
    {
        match self.nodes.recent_place(node) {
            Some(place) => place,
            None => self.make_single(node),
        }
    }

    // What `single` does, wherever the node stands.
    #[inline(never)]
    fn make_single(&mut self, node: u64) -> Place
        requires { HasCell self.old.cells node }
        ensures same { SeesSame self.old self.new }
        ensures place { (result.number ≡ node) × IsPlace self.new.slots result }
    {
        match self.nodes.place(node) {
            Some(place) => place,
            None => self.take_out(node),
        }
    }

    // Takes a node out of its run, and with it one that would stand there alone, before it or
    // behind it. Its place.
    #[inline(never)]
    fn take_out(&mut self, node: u64) -> Place
        requires { IsSome (said run self.old.list node) }
        ensures same { SeesSame self.old self.new }
        ensures place { (result.number ≡ node) × IsPlace self.new.slots result }
    {
        let nodes = match self.nodes.stretch_with(node) {
            Some(nodes) => nodes,
            None => unreachable!(),
        };
        let before = (node - nodes.first) as u32;
        let behind = nodes.count - before - 1;
        if before == 1 {
            self.set_alone(nodes.first, nodes.value);
        }
        if behind == 1 {
            self.set_alone(node + 1, nodes.value.after(before + 1));
        }
        self.set_alone(node, nodes.value.after(before))
    }

    // Takes a node, of which its run says this, out of it. Its place.
    fn set_alone(&mut self, node: u64, value: Run) -> Place
        requires fit { IsFit run (record { first = node; count = 1; value = value }) }
        requires as_said { said run self.old.list node ≡ Some value }
        requires told { map.get self.old.cells node ≡ Some (run_cell value) }
        ensures same { SeesSame self.old self.new }
        ensures others { (n : ℕ) → n ≢ node → said run self.new.list n ≡ said run self.old.list n }
        ensures place { (result.number ≡ node) × IsPlace self.new.slots result }
    {
        self.remove_run(Stretch {
            first: node,
            count: 1,
            value,
        });
        self.insert(node, Single::from_stretch(self.alloc, value))
    }

    // Takes in a node of which this is said, by itself. Its place.
    #[inline(always)]
    pub(crate) fn insert(&mut self, node: u64, single: Single) -> Place
        requires vacant { map.get self.old.cells node ≡ None }
        requires thin { HasFreeNumber self.old.cells single }
        requires room { self.old.count < self.old.room }
        ensures number { result.number ≡ node }
        ensures inserted { self.new ≡ record self.old {
          cells = map.insert self.old.cells node single;
          slots = map.insert self.old.slots node result.slot;
          count = self.old.count + 1;
        } }
    {
        let thin = single.thin_number();
        let place = self.nodes.insert(node, single);
        self.thin.change(place.slot, None, thin);
        place
    }

    // Takes in a node without parent and children, by itself.
    pub(crate) fn insert_new(&mut self, node: u64, name: NodeName, own: OwnState)
        requires vacant { map.get self.old.cells node ≡ None }
        requires thin { HasFreeNumber self.old.cells (new_cell name own) }
        requires room { self.old.count < self.old.room }
        ensures cells { self.new.cells ≡ map.insert self.old.cells node (new_cell name own) }
        ensures count { self.new.count ≡ self.old.count + 1 }
        ensures room { self.new.room ≡ self.old.room }
    {
        self.insert(node, Single::new(self.alloc, name, own));
    }

    // Takes in nodes, as a run, or by itself where it is one.
    pub(crate) fn insert_run(&mut self, nodes: Stretch<Run>)
        requires fit { 0 < nodes.count → IsFit run nodes }
        requires vacant { (n : ℕ) → is_in nodes n ≡ true → map.get self.old.cells n ≡ None }
        requires thin { HaveFreeNumbers self.old.cells nodes }
        requires room { self.old.count + nodes.count ≤ self.old.room }
        ensures cells { self.new.cells ≡ with_stretch run run_cell self.old.cells nodes }
        ensures count { self.new.count ≡ self.old.count + nodes.count }
        ensures room { self.new.room ≡ self.old.room }
    {
        if nodes.count == 1 {
            self.insert(nodes.first, Single::from_stretch(self.alloc, nodes.value));
        } else if nodes.count > 1 {
            self.nodes.insert_stretch(nodes);
            self.thin.enter_run(nodes);
        }
    }

    // Says something else of nodes of one run.
    pub(crate) fn put_run(&mut self, nodes: Stretch<Run>, value: Run)
        requires was { IsFit run nodes }
        requires fit { IsFit run (record nodes { value = value }) }
        requires together { AreTogether self.old.list nodes.first nodes.count }
        requires told { Tells run run_cell self.old.cells nodes }
        requires thin { HaveFreeNumbers (without_stretch self.old.cells nodes)
            (record nodes { value = value }) }
        ensures cells { self.new.cells
            ≡ with_stretch run run_cell self.old.cells (record nodes { value = value }) }
        ensures slots { self.new.slots ≡ self.old.slots }
        ensures count { self.new.count ≡ self.old.count }
        ensures room { self.new.room ≡ self.old.room }
    {
        let now = Stretch { value, ..nodes };
        if is_same_number(value.thin_number(), nodes.value.thin_number()) {
            self.nodes.put_stretch(now);
        } else {
            self.thin.leave_run(nodes);
            self.nodes.put_stretch(now);
            self.thin.enter_run(now);
        }
    }

    // Changes the node at a place.
    #[inline(always)]
    pub(crate) fn change_at<C: Change>(&mut self, place: Place, change: C)
        requires place { IsPlace self.old.slots place }
        requires thin { HasFreeNumber (map.remove self.old.cells place.number)
            (C.cell change (cell_at self.old.cells place.number)) }
        ensures { self.new ≡ record self.old {
          cells = changed self.old.cells place.number (C.cell change);
        } }
    {
        let single = self.nodes.at_mut(place);
        let before = single.thin_number();
        change.of_single(single);
        let now = single.thin_number();
        self.thin.change(place.slot, before, now);
    }

    // Changes one node, which stands by itself then.
    #[inline(always)]
    pub(crate) fn change<C: Change>(&mut self, node: u64, change: C)
        requires held { HasCell self.old.cells node }
        requires thin { HasFreeNumber (map.remove self.old.cells node)
            (C.cell change (cell_at self.old.cells node)) }
        ensures cells { self.new.cells ≡ changed self.old.cells node (C.cell change) }
        ensures alone { IsSome (map.get self.new.slots node) }
        ensures count { self.new.count ≡ self.old.count }
        ensures room { self.new.room ≡ self.old.room }
    {
        let place = self.single(node);
        self.change_at(place, change);
    }

    // Takes out the node at a place.
    #[inline(always)]
    pub(crate) fn remove_at(&mut self, place: Place) -> Single
        requires { IsPlace self.old.slots place }
        ensures node { map.get self.old.cells place.number ≡ Some result }
        ensures count { self.new.count + 1 ≡ self.old.count }
        ensures removed { self.new ≡ record self.old {
          cells = map.remove self.old.cells place.number;
          slots = map.remove self.old.slots place.number;
          count = self.new.count;
        } }
    {
        let single = self.nodes.remove(place);
        self.thin.change(place.slot, single.thin_number(), None);
        single
    }

    // Takes out nodes of one run.
    pub(crate) fn remove_run(&mut self, nodes: Stretch<Run>)
        requires fit { IsFit run nodes }
        requires together { AreTogether self.old.list nodes.first nodes.count }
        requires told { Tells run run_cell self.old.cells nodes }
        ensures cells { self.new.cells ≡ without_stretch self.old.cells nodes }
        ensures apart { (n : ℕ) → is_in nodes n ≡ true → map.get self.old.slots n ≡ None }
        ensures free { HaveFreeNumbers self.new.cells nodes }
        ensures less { SayNoMore run self.old.list nodes self.new.list }
        ensures slots { self.new.slots ≡ self.old.slots }
        ensures count { self.new.count + nodes.count ≡ self.old.count }
        ensures fits { self.new.count + nodes.count ≤ self.new.room }
        ensures room { self.new.room ≡ self.old.room }
    {
        self.thin.leave_run(nodes);
        self.nodes.remove_stretch(nodes.first, nodes.count);
    }
}
