// The lines of a script that a number makes, answered and counted.
ghost use Rattle.std.specs.Prelude.{◌≡◌, ◌≢◌, ◌≤◌, ◌⊎◌, [], map};
ghost use Rattle.vm_ids.specs.Counting.{Rose};
ghost use Rattle.vm_model.specs.Run.{command_semantics, state_of};
ghost use Rattle.actor_script.specs.Forms.{command_of};
ghost use Rattle.line_service.specs.Serving.{answer_budget};
ghost use Rattle.replay.specs.Ending.{Summed, TellsCounts, TrialEnds, lines_made};
ghost use Rattle.replay.specs.Managing.{CanCall, scene_of_manager};
ghost use Rattle.replay.specs.Replaying.{CanBegin, found, left, outside_in};

use crate::Status;
use crate::asked::Generated;
use crate::commands::Commands;
use crate::given::Given;
use actor_script::{Gen, Tally, write_summary};
use gmi_calls::Gmi;
use line_service::answer_made;
use pull_wait::PullWait;
use pvm_core::Pvm;
use std::alloc::Global;
use vm_ids::{Counts, PAGE};
use vm_port::{Chooser, Dispatcher, Mapper, Sink};

// Answers each line of the script, and writes the summary of the answers. Accesses may wait for
// their pages. Beside the calls of the manager it takes no memory.
fn answer_all<G: Gmi<M, C>, M: Mapper, C: Chooser, D: Dispatcher, K: Sink>(
    commands: &mut Commands<G>,
    mapper: &mut M,
    chooser: &mut C,
    waits: &mut PullWait,
    dispatcher: &mut D,
    sink: &mut K,
    script: Generated,
) -> Status
    requires able { CanCall G.Gmi commands.old.gmi (M.held mapper.old) (M.page_bytes mapper.old) }
    requires made { G.made commands.old.gmi ≤ answer_budget }
    requires none { waits.old ≡ [] }
    requires few { script.lines ≤ 1000000 }
    ensures ends { (counts : Counts)
        × TellsCounts (state_of G.machine G.forest commands.new.gmi (M.held mapper.new)) counts
        × Summed result
        (scene_of_manager G.Gmi M.Mapper commands.old.gmi mapper.old (D.turns dispatcher.old)
        (K.written sink.old))
        (scene_of_manager G.Gmi M.Mapper commands.new.gmi mapper.new (D.turns dispatcher.new)
        (K.written sink.new))
        (map command_of (lines_made script)) counts }
    ensures ended { (result ≡ Status.Done) ⊎ (result ≡ Status.SinkFault) }
    ensures sink_fault { result ≡ Status.SinkFault →
        Rose (K.faults sink.old) (K.faults sink.new) }
{
    let mut lines = Gen::new(script.number);
    let mut tally = Tally::new();
    match answer_made(
        commands,
        mapper,
        chooser,
        waits,
        dispatcher,
        &mut tally,
        &mut (),
        &mut lines,
        script.lines,
    ) {
        Ok(()) => {}
        Err(_) => unreachable!(),
    }
    let counts = commands.gmi.stat();
    match write_summary(&tally, &counts, sink) {
        Ok(()) => Status::Done,
        Err(_) => Status::SinkFault,
    }
}

/// Answers each line of the script over a manager of so many page frames, and writes the summary of
/// the answers. `NoMemory` where there is none to begin with.
#[inline(never)]
pub fn trial<S, K: Sink, M: Mapper, C: Chooser, D: Dispatcher>(
    alloc: Global,
    script: Generated,
    frames: u32,
    given: Given<'_, S, K, M, C, D>,
) -> Status
    requires lines { script.lines ≤ 1000000 }
    requires begins { CanBegin frames PAGE (M.page_bytes given.mapper.now) }
    ensures ends { result ≢ Status.NoMemory → TrialEnds result script frames
        (outside_in K.Sink M.Mapper D.Dispatcher (found given.entry))
        (outside_in K.Sink M.Mapper D.Dispatcher (left given.exit)) }
    ensures unread { (left given.exit).0 ≡ given.entry.source.now }
    ensures ended { (result ≡ Status.Done) ⊎ (result ≡ Status.SinkFault)
        ⊎ (result ≡ Status.NoMemory) }
    ensures sink_fault { result ≡ Status.SinkFault →
        Rose (K.faults given.entry.sink.now) (K.faults (left given.exit).1) }
    ensures untouched { result ≡ Status.NoMemory → left given.exit ≡ found given.entry }
{
    let manager = match Pvm::new(alloc, frames, PAGE as u32) {
        Ok(manager) => manager,
        Err(_) => return Status::NoMemory,
    };
    let mut waits = match PullWait::new(alloc) {
        Ok(waits) => waits,
        Err(_) => return Status::NoMemory,
    };
    let Given {
        source: _,
        sink,
        mapper,
        chooser,
        dispatcher,
    } = given;
    let mut commands = Commands { gmi: manager };
    answer_all(
        &mut commands,
        mapper,
        chooser,
        &mut waits,
        dispatcher,
        sink,
        script,
    )
}
