// The stack of the program.
use std::random::RandomSource;
use vm_ids::NoMemory;

// More bytes than the deepest call needs.
const DEEPEST: usize = 1 << 18;

/// Takes as much stack as the deepest call needs. A program whose stack can't grow any more is
/// ended by a signal, and it can't where the heap has taken all addresses that there are: so this
/// comes before anything else takes memory. `NoMemory` where there is no room for the stack.
pub fn take_stack(rt: &HostRuntime) -> Result<(), NoMemory> {
    ask_for_room(rt)?;
    touch_stack(rt);
    Ok(())
}

// Whether there are the addresses is asked of the heap, which gives them back at once: where they
// aren't there it says so.
fn ask_for_room(rt: &HostRuntime) -> Result<(), NoMemory> {
    let _room: Vec<u8> = Vec::with_capacity(rt.alloc(), DEEPEST)?;
    Ok(())
}

// The system gives the stack where it is written. The array goes to a call of the system, so that it
// is there whatever an optimiser finds out of it.
#[inline(never)]
fn touch_stack(rt: &HostRuntime) {
    let mut array = [0u8; DEEPEST];
    let _ = rt.fill_bytes(&mut array[..1]);
}
