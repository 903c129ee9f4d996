// The loop over a service whose accesses always wait: in which order lines are answered.
ghost use Rattle.std.specs.Prelude.{◌<◌, false, Some};
ghost use Rattle.script_tests.specs.Postponed.{actor_in, few_actors, fronts_read, postponed};

use actor_script::{Gen, Tally};
use gmi_calls::Delivered;
use line_service::{Ended, Service, answer_made, replay};
use pull_wait::PullWait;
use std::alloc::Global;
use std::test::Fail;
use vm_ids::{Access, ActorId, Answer, FaultAt, NoMemory, Refusal, Trouble};
use vm_port::{Chooser, Fifo, ListedTurns, Mapper, MemoryMapper, MemorySink, MemorySource};

// Each line that isn't empty is an access, of one of two actors by its first byte. It always waits,
// and its delivery is a fault. Other lines are no commands.
#[derive(Drop)]
struct Postponing;

impl<M: Mapper, C: Chooser> Service<M, C> for Postponing {
    ghost semantics = { postponed };

    ghost read = { actor_in };

    ghost access_of = { λ actor access. Some actor.0 };

    ghost state = { λ v held. tt };

    ghost able = { λ v held page_bytes. Unit {0} };

    ghost made = { λ v. 0 };

    ghost ready = { λ v actor access. false };

    ghost admits = { λ v read. Unit {0} };

    ghost lives = { λ v held actor. actor < 2 };

    fn access_in(&self, line: &[u8]) -> Option<(ActorId, Access)> {
        match line.first() {
            Some(byte) => {
                let actor = ActorId(u32::from(*byte % 2));
                let access = Access::Load {
                    address: 0,
                    length: 1,
                };
                Some((actor, access))
            }
            None => None,
        }
    }

    fn answer(&mut self, _line: &[u8], _mapper: &mut M, _chooser: &mut C) -> Answer {
        Err(Trouble::Refused(Refusal::BadLine))
    }

    fn issue(
        &mut self,
        _actor: ActorId,
        _access: &Access,
        _mapper: &mut M,
        _chooser: &mut C,
    ) -> Option<Answer> {
        None
    }

    fn deliver(
        &mut self,
        _actor: ActorId,
        _access: &Access,
        _mapper: &mut M,
        _chooser: &mut C,
    ) -> Delivered {
        Delivered {
            answer: Err(Trouble::Mapper(FaultAt::Victim)),
            came: false,
        }
    }

    ghost few = { λ v held page_bytes actors able apart all. few_actors actors apart all };

    ghost fronts = { fronts_read };
}

// The replies to a script, where the dispatcher has these turns.
fn replies_to(
    alloc: Global,
    script: &str,
    turns: &[Option<u32>],
    sink: &mut MemorySink,
) -> Result<Ended, NoMemory> {
    let mut mapper = MemoryMapper::new(alloc, &[], &[], 0, &[], 512)?;
    let mut waits = PullWait::new(alloc)?;
    let mut source = MemorySource::new(script.as_bytes(), &[]);
    Ok(replay(
        &mut Postponing,
        &mut mapper,
        &mut Fifo::new(),
        &mut waits,
        &mut ListedTurns::new(turns),
        &mut source,
        sink,
    ))
}

#[test]
fn deliveries_go_by_turns(rt: HostRuntime) -> Result<(), Fail> {
    let mut sink = MemorySink::new(rt.alloc(), 4096, &[])?;
    let turns = [None, Some(1), None];
    let ended = replies_to(rt.alloc(), "a\nb\n\nb\nb", &turns, &mut sink)?;
    assert_eq!(rt; ended, Ended::Done);
    let replies = "2 fault mapper victim\n1 fault mapper victim\n3 no BadLine\n\
        4 fault mapper victim\n5 fault mapper victim\n";
    assert_eq!(rt; sink.written(), replies.as_bytes());
    Ok(())
}

#[test]
fn made_lines_are_counted(rt: HostRuntime) -> Result<(), Fail> {
    let mut mapper = MemoryMapper::new(rt.alloc(), &[], &[], 0, &[], 512)?;
    let mut waits = PullWait::new(rt.alloc())?;
    let mut tally = Tally::new();
    let result = answer_made(
        &mut Postponing,
        &mut mapper,
        &mut Fifo::new(),
        &mut waits,
        &mut ListedTurns::new(&[]),
        &mut tally,
        &mut (),
        &mut Gen::new(1),
        100,
    );
    assert_eq!(rt; result, Ok(()));
    assert_eq!(rt; (tally.lines, tally.ok), (100, 0));
    Ok(())
}
