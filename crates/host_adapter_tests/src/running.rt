// A run of a script over a mapper.
ghost use Rattle.std.specs.Prelude.{◌≡◌, IfSome};

use replay::{Status, run};
use vm_ids::PAGE;
use vm_port::{Clock, Mapper, MemorySink, MemorySource, Rotor, Sink};

// Whether a run of a script over a mapper, in 3 page frames, is done and writes these replies.
pub(crate) fn is_replied<M: Mapper>(
    rt: &HostRuntime,
    mapper: &mut M,
    script: &str,
    replies: &str,
) -> bool
    requires { IfSome (M.page_bytes mapper.old) (λ bytes. bytes ≡ PAGE) }
{
    let mut source = MemorySource::new(script.as_bytes(), &[]);
    let Ok(mut sink) = MemorySink::new(rt.alloc(), 4096, &[]) else {
        return false;
    };
    let status = run(
        rt.alloc(),
        &["run", "--frames", "3"],
        &mut source,
        &mut sink,
        mapper,
        &mut Clock::new(),
        &mut Rotor::new(),
    );
    status == Status::Done && sink.written() == replies.as_bytes()
}
