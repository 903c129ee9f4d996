// Each call once, with memory at hand.
use pull_wait::PullWait;
use std::test::Fail;
use vm_ids::{Access, ActorId, Parked};

fn load(line: u32, actor: u32) -> Parked {
    Parked {
        line,
        actor: ActorId(actor),
        access: Access::Load {
            address: 0,
            length: 1,
        },
    }
}

// Parks an access, where that can be.
fn park(waiting: &mut PullWait, parked: Parked) -> bool {
    if waiting.len() >= 256 || waiting.of_actor(parked.actor).is_some() {
        return false;
    }
    waiting.park(parked);
    true
}

#[test]
fn accesses_are_parked_and_taken(rt: HostRuntime) -> Result<(), Fail> {
    let mut waiting = PullWait::new(rt.alloc())?;
    assert_eq!(rt; waiting.len(), 0);
    assert!(rt; park(&mut waiting, load(9, 1)));
    assert!(rt; park(&mut waiting, load(10, 3)));
    assert!(rt; park(&mut waiting, load(12, 2)));
    assert!(rt; !park(&mut waiting, load(13, 3)));
    assert_eq!(rt; waiting.of_actor(ActorId(3)), Some(1));
    assert!(rt; waiting.get(3).is_none());
    assert!(rt; waiting.len() == 3);
    let taken = waiting.take(1);
    assert_eq!(rt; taken.line, 10);
    assert!(rt; waiting.of_actor(ActorId(3)).is_none());
    assert_eq!(rt; waiting.of_actor(ActorId(2)), Some(1));
    assert_eq!(rt; waiting.get(0).expect(&rt, "two are left").line, 9);
    assert_eq!(rt; waiting.len(), 2);
    Ok(())
}
