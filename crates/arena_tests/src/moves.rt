// Pages are moved over others, many at once.
use local_cache::Caches;
use move_pages::move_step;
use tree_merge::Released;
use vm_ids::{PageNo, Span};

#[test]
fn alike_pages_are_moved_at_once(rt: HostRuntime) {
    let mut caches = Caches::new(rt.alloc());
    caches.reserve(1, 5).expect(&rt, "memory");
    let cache = caches.make_temp(4);
    let span = Span {
        from: cache,
        from_page: PageNo(0),
        to: cache,
        to_page: PageNo(2),
        pages: 2,
    };
    let step = move_step(&mut caches, span, 0);
    assert_eq!(&rt; step.pages, 2);
    assert_eq!(&rt; step.released, Released::Nothing);
    assert_eq!(&rt; caches.runs(), 2);
}
