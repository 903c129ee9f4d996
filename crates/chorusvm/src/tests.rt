// What is told of a run that isn't done.
use crate::fault::Fault;
use replay::Status;

#[test]
fn faults_have_a_message(rt: HostRuntime) -> Result<(), std::alloc::AllocError> {
    for (status, code, message) in [
        (
            Status::Usage,
            1,
            "usage: chorusvm run --frames F [--page B] [--segments DIR] | generate N L | trial N L --frames F [--segments DIR] | mix --frames F [--segments DIR] | ipc --frames F [--segments DIR] | keep --limit K --frames F [--segments DIR] | flat --frames F [--segments DIR]",
        ),
        (Status::SourceFault, 2, "source fault"),
        (Status::SinkFault, 3, "sink fault"),
        (Status::NoMemory, 4, "no memory"),
        (Status::TooLong, 5, "script too long"),
    ] {
        assert_eq!(&rt; status.code(), code);
        match Fault::of(status) {
            Some(fault) => {
                let text = format!(in rt.alloc(); "{fault}")?;
                assert_eq!(&rt; text.as_str(), message);
            }
            None => panic!(&rt; "no message"),
        }
    }
    assert_eq!(&rt; Status::Done.code(), 0);
    assert!(&rt; Fault::of(Status::Done).is_none());
    Ok(())
}
