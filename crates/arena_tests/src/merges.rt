// Pages that are copied or retired at once.
use local_cache::Caches;
use tree_merge::{Released, Step, copy_step, retire_step};
use vm_ids::{Extent, PageNo, Span};

#[test]
fn alike_pages_are_copied_at_once(rt: HostRuntime) {
    let mut caches = Caches::new(rt.alloc());
    caches.reserve(1, 36).expect(&rt, "memory");
    let cache = caches.make_temp(18);
    let span = Span {
        from: cache,
        from_page: PageNo(0),
        to: cache,
        to_page: PageNo(9),
        pages: 9,
    };
    let step = copy_step(&mut caches, span, 0);
    let all = Step {
        pages: 9,
        released: Released::Nothing,
    };
    assert_eq!(&rt; step, all);
    assert_eq!(&rt; caches.runs(), 2);
}

#[test]
fn alike_pages_are_retired_at_once(rt: HostRuntime) {
    let mut caches = Caches::new(rt.alloc());
    caches.reserve(1, 4).expect(&rt, "memory");
    let cache = caches.make_temp(4);
    let extent = Extent {
        cache,
        first: PageNo(0),
        pages: 3,
    };
    let step = retire_step(&mut caches, extent, 1);
    let rest = Step {
        pages: 2,
        released: Released::Nothing,
    };
    assert_eq!(&rt; step, rest);
    assert_eq!(&rt; caches.runs(), 2);
}
