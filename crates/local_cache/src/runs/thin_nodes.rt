// The working nodes with fewer than two children.
ghost use Rattle.std.specs.Prelude.{◌≡◌, ◌↔◌, ℕ, ◌+◌, ◌<◌, ◌≤◌, None, max, IfSome, IsOk, IsTrue, MatchOption, OnErr, OnOk};
ghost use Rattle.std.specs.FinMap as map;
ghost use Rattle.stretches.specs.Cells.{cells};
ghost use Rattle.stretches.specs.Rising.{rising};
ghost use Rattle.stretches.specs.Stretch.{IsFit};
ghost use Rattle.local_cache.specs.NodeCells.{run_cell};
ghost use Rattle.local_cache.specs.Runs.{run, run_after};
ghost use Rattle.local_cache.specs.Thin.{thin_number};
ghost use Rattle.local_cache.specs.ThinNodes.{HasNone, IsFirst, IsFirstOf, changed_to, lesser_of, with_run, without_run};

use crate::runs::{Run, clear_many};
use least_heap::{LeastHeap, Numbered};
use std::alloc::Global;
use std::marker::Model;
use stretches::{Rising, Stretch, StretchList};
use vm_ids::NoMemory;

/// The thin nodes, by their working numbers: those that stand alone in a heap of their slots, and
/// those of runs in stretches.
#[derive(Drop)]
pub(crate) struct ThinNodes {
    alone: LeastHeap,
    runs: StretchList<Rising>,
}

impl Model for ThinNodes {
    ghost use Rattle.local_cache.specs.ThinNodes.{IsCountedFor, Thin, seen, thin_code};

    ghost Value = { Thin };

    ghost coded = { thin_code };

    ghost view = { λ t. seen t.alone t.runs };

    ghost invariant = { λ t. IsCountedFor t.alone t.runs };
}

/// The thin node with the least number.
#[derive(Clone, Copy)]
pub(crate) enum FirstThin {
    /// It stands alone, in this slot.
    Alone(u32),
    /// It stands in a run.
    Among(u64),
}

// The first of stretches.
fn first_of(runs: &StretchList<Rising>) -> Option<Stretch<Rising>>
    ensures { MatchOption result (cells rising runs.now.list ≡ map.empty)
        (IsFirstOf (cells rising runs.now.list)) }
{
    if runs.len() > 0 {
        runs.next_from(0)
    } else {
        None
    }
}

// Which of both has the lesser number.
fn lesser_of(run: Option<Stretch<Rising>>, alone: Option<Numbered>) -> Option<FirstThin>
    ensures { result ≡ lesser_of run alone }
{
    match alone {
        None => Some(FirstThin::Among(run?.value.0)),
        Some(alone) => match run {
            Some(run) if run.first < alone.number => Some(FirstThin::Among(run.value.0)),
            _ => Some(FirstThin::Alone(alone.place)),
        },
    }
}

pub(crate) fn is_same_number(one: Option<u64>, other: Option<u64>) -> bool
    ensures { IsTrue result ↔ (one ≡ other) }
{
    one == other
}

impl ThinNodes {
    // No node, and no memory for one.
    pub(crate) fn new(alloc: Global) -> Self
        ensures { result ≡ record { alone = map.empty; among = map.empty; room = 0 } }
    {
        ThinNodes {
            alone: LeastHeap::new(alloc),
            runs: StretchList::new(alloc),
        }
    }

    // Makes room for so many nodes in all. After an error there is no less than before.
    pub(crate) fn reserve(&mut self, total: u32) -> Result<(), NoMemory>
        ensures ok { OnOk result (self.new ≡ record self.old { room = max self.old.room total }) }
        ensures err { OnErr result (self.new ≡ self.old) }
        ensures enough { total ≤ self.old.room → IsOk result }
    {
        self.runs.reserve(total as usize)?;
        self.alone.reserve(total)?;
        Ok(())
    }

    // The thin node with the least number.
    pub(crate) fn first(&self) -> Option<FirstThin>
        ensures { MatchOption result (HasNone self.now) (IsFirst self.now) }
    {
        let run = first_of(&self.runs);
        let alone = self.alone.least();
        lesser_of(run, alone)
    }

    // A node that stands alone, in this slot, had this number as a thin one, and has this one now.
    #[inline(always)]
    pub(crate) fn change(&mut self, slot: u32, before: Option<u64>, now: Option<u64>)
        requires before { map.get self.old.alone slot ≡ before }
        requires room { slot < self.old.room }
        ensures { self.new ≡ record self.old { alone = changed_to self.old.alone slot now } }
    {
        if !is_same_number(before, now) {
            self.exchange(slot, before, now);
        }
    }

    // What `change` does, where the numbers are two.
    #[inline(never)]
    fn exchange(&mut self, slot: u32, before: Option<u64>, now: Option<u64>)
        requires before { map.get self.old.alone slot ≡ before }
        requires room { slot < self.old.room }
        ensures { self.new ≡ record self.old { alone = changed_to self.old.alone slot now } }
    {
        self.leave(slot, before);
        self.enter(slot, now);
    }

    // A node that stands alone, in this slot, had this number as a thin one, and isn't thin.
    fn leave(&mut self, slot: u32, before: Option<u64>)
        requires { map.get self.old.alone slot ≡ before }
        ensures { self.new ≡ record self.old { alone = map.remove self.old.alone slot } }
    {
        match before {
            Some(_) => self.alone.leave(slot),
            None => {}
        }
    }

    // A node that stands alone, in this slot, wasn't thin, and has this number now.
    fn enter(&mut self, slot: u32, now: Option<u64>)
        requires free { map.get self.old.alone slot ≡ None }
        requires room { slot < self.old.room }
        ensures { self.new ≡ record self.old { alone = changed_to self.old.alone slot now } }
    {
        match now {
            Some(number) => self.alone.enter(number, slot),
            None => {}
        }
    }

    // Nodes of a run come, whose numbers no node of a run has.
    pub(crate) fn enter_run(&mut self, nodes: Stretch<Run>)
        requires fit { IsFit run nodes }
        requires vacant { (k : ℕ) → k < nodes.count
            → IfSome (thin_number (run_cell (run_after nodes.value k)))
            (λ n. map.get self.old.among n ≡ None) }
        requires room { map.len self.old.among + nodes.count ≤ self.old.room }
        ensures { self.new ≡ record self.old { among = with_run self.old.among nodes } }
    {
        if let Some(number) = nodes.value.thin_number() {
            self.runs.insert(Stretch {
                first: number,
                count: nodes.count,
                value: Rising(nodes.first),
            });
            self.runs.join_at(number + nodes.count as u64);
            self.runs.join_at(number);
        }
    }

    // Nodes of a run go.
    pub(crate) fn leave_run(&mut self, nodes: Stretch<Run>)
        requires fit { IsFit run nodes }
        ensures { self.new ≡ record self.old { among = without_run self.old.among nodes } }
    {
        if let Some(number) = nodes.value.thin_number() {
            clear_many(&mut self.runs, number, nodes.count);
        }
    }
}
