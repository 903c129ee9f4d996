// The replay of a script of each kind, over a manager that begins.
ghost use Rattle.std.specs.Prelude.{◌≤◌};
ghost use Rattle.line_service.specs.Serving.{answer_budget};
ghost use Rattle.replay.specs.Ending.{EndsFrom, FlatEnds, KeepEnds, MixEnds, PortEnds, RunEnds};
ghost use Rattle.replay.specs.Replaying.{CanBegin, Replayed, found, left};

use crate::Status;
use crate::asked::Size;
use crate::at_once::AtOnce;
use crate::commands::Commands;
use crate::given::Given;
use flat_mm::FlatMm;
use line_service::{Service, replay};
use mix_process::Mix;
use pull_wait::PullWait;
use pvm_core::Pvm;
use seg_manager::SegManager;
use std::alloc::Global;
use transit_ipc::Ports;
use vm_ids::PAGE;
use vm_port::{Chooser, Dispatcher, Mapper, Sink, Source};

// Answers each line of what the source has left, and writes the replies. `NoMemory` where there is
// none to begin with.
fn replay_over<V: Service<M, C>, S: Source, K: Sink, M: Mapper, C: Chooser, D: Dispatcher>(
    alloc: Global,
    service: &mut V,
    given: Given<'_, S, K, M, C, D>,
) -> Status
    requires able { V.able service.old (M.held given.mapper.now) (M.page_bytes given.mapper.now) }
    requires made { V.made service.old ≤ answer_budget }
    ensures { Replayed S.Source K.Sink M.Mapper D.Dispatcher
        (EndsFrom result V.semantics V.read
        (V.state service.old (M.held (found given.entry).2))
        (V.state service.new (M.held (left given.exit).2)))
        result (found given.entry) (left given.exit) }
{
    let mut waits = match PullWait::new(alloc) {
        Ok(waits) => waits,
        Err(_) => return Status::NoMemory,
    };
    let Given {
        source,
        sink,
        mapper,
        chooser,
        dispatcher,
    } = given;
    Status::of(replay(
        service, mapper, chooser, &mut waits, dispatcher, source, sink,
    ))
}

/// Replays the script that the source has left, over a manager of this size.
#[inline(never)]
pub fn replay_commands<S: Source, K: Sink, M: Mapper, C: Chooser, D: Dispatcher>(
    alloc: Global,
    size: Size,
    given: Given<'_, S, K, M, C, D>,
) -> Status
    requires { CanBegin size.frames size.page_bytes (M.page_bytes given.mapper.now) }
    ensures { Replayed S.Source K.Sink M.Mapper D.Dispatcher (RunEnds result size)
        result (found given.entry) (left given.exit) }
{
    let manager = match Pvm::new(alloc, size.frames, size.page_bytes) {
        Ok(manager) => manager,
        Err(_) => return Status::NoMemory,
    };
    let mut commands = Commands { gmi: manager };
    replay_over(alloc, &mut commands, given)
}

/// Replays the script of processes that the source has left, over a manager of so many page frames.
#[inline(never)]
pub fn replay_processes<S: Source, K: Sink, M: Mapper, C: Chooser, D: Dispatcher>(
    alloc: Global,
    frames: u32,
    given: Given<'_, S, K, M, C, D>,
) -> Status
    requires { CanBegin frames PAGE (M.page_bytes given.mapper.now) }
    ensures { Replayed S.Source K.Sink M.Mapper D.Dispatcher (MixEnds result)
        result (found given.entry) (left given.exit) }
{
    let manager = match Pvm::new(alloc, frames, PAGE as u32) {
        Ok(manager) => manager,
        Err(_) => return Status::NoMemory,
    };
    let answerer = Mix::new::<M, C>(alloc, manager);
    let mut processes = AtOnce { answerer };
    replay_over(alloc, &mut processes, given)
}

/// Replays the script of message ports that the source has left, over a manager of so many page
/// frames.
#[inline(never)]
pub fn replay_messages<S: Source, K: Sink, M: Mapper, C: Chooser, D: Dispatcher>(
    alloc: Global,
    frames: u32,
    given: Given<'_, S, K, M, C, D>,
) -> Status
    requires { CanBegin frames PAGE (M.page_bytes given.mapper.now) }
    ensures { Replayed S.Source K.Sink M.Mapper D.Dispatcher (PortEnds result frames)
        result (found given.entry) (left given.exit) }
{
    let manager = match Pvm::new(alloc, frames, PAGE as u32) {
        Ok(manager) => manager,
        Err(_) => return Status::NoMemory,
    };
    let answerer = Ports::new::<M, C>(alloc, manager);
    let mut ports = AtOnce { answerer };
    replay_over(alloc, &mut ports, given)
}

/// Replays the script of segments that the source has left, over a manager of so many page frames.
/// So many caches are kept to which nothing refers.
#[inline(never)]
pub fn replay_segments<S: Source, K: Sink, M: Mapper, C: Chooser, D: Dispatcher>(
    alloc: Global,
    frames: u32,
    limit: u32,
    given: Given<'_, S, K, M, C, D>,
) -> Status
    requires { CanBegin frames PAGE (M.page_bytes given.mapper.now) }
    ensures { Replayed S.Source K.Sink M.Mapper D.Dispatcher (KeepEnds result frames)
        result (found given.entry) (left given.exit) }
{
    let manager = match Pvm::new(alloc, frames, PAGE as u32) {
        Ok(manager) => manager,
        Err(_) => return Status::NoMemory,
    };
    let answerer = SegManager::new::<M, C>(alloc, manager, limit);
    let mut segments = AtOnce { answerer };
    replay_over(alloc, &mut segments, given)
}

/// Replays the script that the source has left, over a manager in which each live page has one of
/// so many page frames.
#[inline(never)]
pub fn replay_flat<S: Source, K: Sink, M: Mapper, C: Chooser, D: Dispatcher>(
    alloc: Global,
    frames: u32,
    given: Given<'_, S, K, M, C, D>,
) -> Status
    requires { CanBegin frames PAGE (M.page_bytes given.mapper.now) }
    ensures { Replayed S.Source K.Sink M.Mapper D.Dispatcher (FlatEnds result frames)
        result (found given.entry) (left given.exit) }
{
    let manager = match FlatMm::new(alloc, frames, PAGE as u32) {
        Ok(manager) => manager,
        Err(_) => return Status::NoMemory,
    };
    let mut commands = AtOnce { answerer: manager };
    replay_over(alloc, &mut commands, given)
}
