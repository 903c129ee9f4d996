// Nodes of pages that stand by themselves and are alike, put into one run.
ghost use Rattle.std.specs.Prelude.{◌≡◌, ◌+◌, ◌<◌, ◌≤◌, ◌^◌, IfSome};
ghost use Rattle.local_cache.specs.NodeTable.{AreSaidBy, IsStandingAs, SeesSameCells};
ghost use Rattle.local_cache.specs.PageNodes.{HasNode};
ghost use Rattle.local_cache.specs.Runs.{HasNames, run};

use crate::runs::{NodeRuns, NodeTable, Run, RunName};
use stretches::{Says, Stretch};
use vm_ids::NodeId;

// Fewer aren't worth a run.
const FEWEST: u32 = 8;

// How many names there are behind the first one, of those of pages: of others none.
fn names_behind(name: RunName) -> u32
    ensures { HasNames name result }
{
    match name {
        RunName::Pages(_, page) => u32::MAX - page.0,
        RunName::Working(_) => 0,
    }
}

impl NodeTable {
    // Puts alike nodes of pages that stand by themselves, from one on, as far as so many, into one
    // run. Where they are fewer than 8 nothing changes.
    pub(crate) fn gather_from(&mut self, node: u64, most: u32)
        requires { node + most < 2 ^ 64 }
        ensures { SeesSameCells self.old self.new }
    {
        if let Some(run) = self.run_alone(node) {
            let most = most.min(names_behind(run.name));
            if most >= FEWEST {
                let count = self.count_alike(node, run, most);
                if count >= FEWEST {
                    self.gather(node, run, count);
                }
            }
        }
    }

    // What a run of a node alone would say, where the node stands by itself and is a page's.
    fn run_alone(&self, node: u64) -> Option<Run>
        ensures { IfSome result (IsStandingAs self.now node) }
    {
        match self.nodes.lone(node) {
            Some(single) => single.as_run(),
            None => None,
        }
    }

    // How many nodes that stand by themselves this run can say, as far as so many.
    fn count_alike(&self, node: u64, run: Run, most: u32) -> u32
        requires some { 0 < most }
        requires short { node + most < 2 ^ 64 }
        requires names { HasNames run.name most }
        requires first { IsStandingAs self.now node run }
        ensures some { 0 < result }
        ensures within { result ≤ most }
        ensures alike { AreSaidBy self.now node run result }
    {
        let mut count = 1;
        while count < most {
            match self.run_alone(node + count as u64) {
                Some(next) if next.is_same(run.after(count)) => count += 1,
                _ => return count,
            }
        }
        count
    }

    // So many nodes that stand by themselves, and of which this run says all, become the run.
    fn gather(&mut self, node: u64, run: Run, count: u32)
        requires more { 1 < count }
        requires short { node + count < 2 ^ 64 }
        requires names { HasNames run.name count }
        requires said { AreSaidBy self.old node run count }
        ensures { SeesSameCells self.old self.new }
    {
        self.nodes.gather(Stretch {
            first: node,
            count,
            value: run,
        });
    }
}

impl NodeRuns {
    // The nodes of pages from this one on that are alike become a run.
    pub(crate) fn gather(&mut self, node: NodeId, most: u32)
        requires { HasNode self.old node }
        ensures { self.new ≡ self.old }
    {
        self.table.gather_from(node.0, most);
    }
}
