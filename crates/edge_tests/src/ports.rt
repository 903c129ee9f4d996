// Each object in memory once on its happy path, and its faults where it was told to have them.
use std::test::Fail;
use vm_ids::{PageNo, SegId, SlotId};
use vm_port::{
    CallKind, CallNo, Chooser, Clock, Dispatcher, Failed, Fifo, Listed, ListedTurns, Mapper,
    MemoryMapper, MemorySink, MemorySource, Rotor, Sink, Source, WrongMapper,
};

#[test]
fn a_source_gives_its_bytes_in_chunks(rt: HostRuntime) {
    let mut source = MemorySource::new(b"abc", &[2]);
    source.chunk(2);
    let mut into = [0u8; 4];
    assert_eq!(rt; source.read(&mut into), Ok(2));
    assert_eq!(rt; into, [b'a', b'b', 0, 0]);
    assert_eq!(rt; source.read(&mut into), Err(Failed));
    assert_eq!(rt; source.read(&mut into), Ok(1));
    assert_eq!(rt; source.read(&mut into), Ok(0));
}

#[test]
fn a_sink_takes_what_fits(rt: HostRuntime) -> Result<(), Fail> {
    let mut sink = MemorySink::new(rt.alloc(), 3, &[1])?;
    assert_eq!(rt; sink.write(b"ab"), Err(Failed));
    assert_eq!(rt; sink.write(b"ab"), Ok(2));
    assert_eq!(rt; sink.write(b"cd"), Ok(1));
    assert_eq!(rt; sink.write(b"d"), Err(Failed));
    assert_eq!(rt; sink.written(), b"abc".as_slice());
    Ok(())
}

#[test]
fn choosers_by_their_rules(rt: HostRuntime) {
    let may = [true, false, true, true];
    let mut marks = [false; 4];
    let mut fifo = Fifo::new();
    let mut listed = Listed::new(&[4]);
    for &(by_age, by_list) in &[(0, 2), (2, 0), (3, 0), (0, 0)] {
        assert_eq!(rt; fifo.pick(&may, &mut marks), by_age);
        assert_eq!(rt; listed.pick(&may, &mut marks), by_list);
    }
}

#[test]
fn dispatchers_by_their_rules(rt: HostRuntime) {
    let mut rotor = Rotor::new();
    let mut listed = ListedTurns::new(&[None, Some(4), Some(1)]);
    for &(alternating, by_list) in &[
        (None, None),
        (Some(2), Some(1)),
        (None, Some(1)),
        (Some(2), None),
    ] {
        assert_eq!(rt; rotor.turn(3), alternating);
        assert_eq!(rt; listed.turn(3), by_list);
    }
}

// The clock passes over a marked place once, and then takes it.
#[test]
fn a_second_chance(rt: HostRuntime) {
    let may = [true, true, false];
    let mut marks = [true, false, true];
    let mut clock = Clock::new();
    assert_eq!(rt; clock.pick(&may, &mut marks), 1);
    assert_eq!(rt; marks, [false, false, true]);
    assert_eq!(rt; clock.pick(&may, &mut marks), 0);
    assert_eq!(rt; marks, [false; 3]);
    marks = [true; 3];
    assert_eq!(rt; clock.pick(&may, &mut marks), 1);
    assert_eq!(rt; marks, [false; 3]);
}

// Segment 1 has 3 bytes on pages of 2, and the first pull of it fails.
#[test]
fn a_segment_gives_back_what_was_pushed(rt: HostRuntime) -> Result<(), Fail> {
    let segments = [[7u8, 8, 9].to_vec(rt.alloc())?];
    let (seg, front, back) = (SegId(1), PageNo(0), PageNo(1));
    let fails = [CallNo {
        kind: CallKind::PullIn,
        nth: 1,
    }];
    let mut mapper = MemoryMapper::new(rt.alloc(), &segments, &[], 0, &fails, 2)?;
    let mut page = [0u8; 2];
    assert_eq!(rt; mapper.size(seg), Ok(Some(2)));
    assert!(rt; mapper.has_page(seg, back));
    assert_eq!(rt; mapper.pull_in(seg, back, &mut page), Err(Failed));
    assert!(rt; mapper.has_page(seg, back));
    assert_eq!(rt; mapper.pull_in(seg, back, &mut page), Ok(()));
    assert_eq!(rt; page, [9, 0]);
    assert!(rt; mapper.has_page(seg, front));
    assert_eq!(rt; mapper.push_out(seg, front, &page), Ok(()));
    assert!(rt; mapper.has_page(seg, front));
    assert_eq!(rt; mapper.page(seg, front), [9u8, 0].as_slice());
    assert_eq!(rt; (mapper.pulls(), mapper.pushes()), (2, 1));
    Ok(())
}

#[test]
fn write_access_is_denied_where_told(rt: HostRuntime) -> Result<(), Fail> {
    let segments = [[7u8, 8, 9].to_vec(rt.alloc())?];
    let (seg, front, back) = (SegId(1), PageNo(0), PageNo(1));
    let mut mapper = MemoryMapper::new(rt.alloc(), &segments, &[(seg, back)], 0, &[], 2)?;
    assert!(rt; mapper.has_page(seg, front));
    assert_eq!(rt; mapper.get_write_access(seg, front), Ok(true));
    assert!(rt; mapper.has_page(seg, back));
    assert_eq!(rt; mapper.get_write_access(seg, back), Ok(false));
    Ok(())
}

#[test]
fn a_slot_gives_back_what_was_pushed(rt: HostRuntime) -> Result<(), Fail> {
    let mut mapper = MemoryMapper::new(rt.alloc(), &[], &[], 1, &[], 2)?;
    let mut page = [0u8; 2];
    assert!(rt; !mapper.has_slot(SlotId(0)));
    assert_eq!(rt; mapper.swap_out(SlotId(0), &[5, 6]), Ok(()));
    assert_eq!(rt; mapper.swap_out(SlotId(1), &[5, 6]), Err(Failed));
    assert!(rt; mapper.has_slot(SlotId(0)));
    assert_eq!(rt; mapper.swap_in(SlotId(0), &mut page), Ok(()));
    assert_eq!(rt; page, [5, 6]);
    Ok(())
}

// Each page that it gives is of another byte, and what was pushed never comes back.
#[test]
fn a_lying_mapper(rt: HostRuntime) {
    let mut mapper = WrongMapper::new(255);
    let mut page = [0u8; 2];
    assert_eq!(rt; mapper.size(SegId(7)), Ok(Some(2)));
    assert_eq!(rt; mapper.get_write_access(SegId(7), PageNo(1)), Ok(true));
    assert_eq!(rt; mapper.swap_out(SlotId(0), b"ab"), Ok(()));
    assert_eq!(rt; mapper.swap_in(SlotId(0), &mut page), Ok(()));
    assert_eq!(rt; page, [255, 255]);
    assert_eq!(rt; mapper.push_out(SegId(1), PageNo(0), b"ab"), Ok(()));
    assert_eq!(rt; mapper.pull_in(SegId(1), PageNo(0), &mut page), Ok(()));
    assert_eq!(rt; page, [0, 0]);
}
