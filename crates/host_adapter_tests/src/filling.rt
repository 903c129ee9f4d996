// A push that a full disk cuts off in the middle of a page.
ghost use Rattle.std.specs.Prelude.{Some, None};

use crate::folders::{mapper_over, new_folder, path_in};
use crate::running::is_replied;
use host_adapters::FileMapper;
use std::{fs, io};
use vm_ids::{PAGE, PageNo, SegId, SlotId};
use vm_port::{Failed, Mapper};

// A mapper over files whose disk is full at the first push: half of the page is written.
#[derive(Drop)]
struct Filling<'a> {
    rt: &'a HostRuntime,
    files: FileMapper<'a>,
    file: &'a str,
    is_full: bool,
}

impl<'a> Mapper for Filling<'a> {
    ghost held = { λ _. None };

    ghost given = { λ _. None };

    ghost counts = { λ m. m.files.counts };

    ghost page_bytes = { λ m. Some m.files.page_bytes };

    fn size(&mut self, seg: SegId) -> Result<Option<u32>, Failed> {
        self.files.size(seg)
    }

    fn pull_in(&mut self, seg: SegId, page: PageNo, into: &mut [u8]) -> Result<(), Failed> {
        self.files.pull_in(seg, page, into)
    }

    fn push_out(&mut self, seg: SegId, page: PageNo, from: &[u8]) -> Result<(), Failed> {
        if !self.is_full {
            return self.files.push_out(seg, page, from);
        }
        self.is_full = false;
        let _ = fs::write(self.rt, self.file, &from[..from.len() / 2]);
        // There is no such segment.
        self.files.push_out(SegId(99), page, from)
    }

    fn get_write_access(&mut self, seg: SegId, page: PageNo) -> Result<bool, Failed> {
        self.files.get_write_access(seg, page)
    }

    fn swap_in(&mut self, slot: SlotId, into: &mut [u8]) -> Result<(), Failed> {
        self.files.swap_in(slot, into)
    }

    fn swap_out(&mut self, slot: SlotId, from: &[u8]) -> Result<(), Failed> {
        self.files.swap_out(slot, from)
    }

    ghost sized = { λ _. tt };
}

// The page is pushed twice.
const FILLS: &str = "actor
open 1
map a1 c1 0 1 10000 rw
store a1 10000 48
store a1 10fff 21
sync c1 0 1
load a1 10fff 1
sync c1 0 1
";

const FILLS_REPLIES: &str = "1 ok a1
2 ok c1
3 ok r1
4 ok
5 ok
6 fault mapper page 0
7 ok 21
8 ok
";

#[test]
fn a_later_push_mends_a_torn_page(rt: HostRuntime) -> io::Result<()> {
    let folder = new_folder(&rt, "torn")?;
    let file = path_in(&rt, &folder, "seg.1")?;
    fs::write(&rt, file.as_str(), "hello")?;
    let mut mapper = Filling {
        rt: &rt,
        files: mapper_over(&rt, &folder, PAGE as u32)?,
        file: file.as_str(),
        is_full: true,
    };
    assert!(&rt; is_replied(&rt, &mut mapper, FILLS, FILLS_REPLIES));
    let bytes = fs::read(&rt, file.as_str())?;
    assert_eq!(&rt; bytes.len(), PAGE);
    assert!(&rt; bytes.starts_with(b"Hello\0") && bytes.ends_with(b"!"));
    fs::remove_dir_all(&rt, folder)
}
