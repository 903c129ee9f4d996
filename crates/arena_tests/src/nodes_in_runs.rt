// Nodes that are made or renamed at once stand in one run, which no clause tells.
use local_cache::Caches;
use std::test::Fail;
use vm_ids::{NodeId, NodeName, PageNo};

#[test]
fn working_nodes_are_made_over_two_children(rt: HostRuntime) -> Result<(), Fail> {
    let mut caches = Caches::new(rt.alloc());
    caches.reserve(0, 2)?;
    let first = caches.fresh_working_over(2, NodeId(3), NodeId(5), NodeId(9));
    let second = NodeId(first.0 + 1);
    assert_eq!(rt; caches.name(second), NodeName::Working(2));
    assert_eq!(rt; caches.parent(second), Some(NodeId(4)));
    assert_eq!(rt; caches.tree_child(second, 0), Some(NodeId(6)));
    assert_eq!(rt; caches.tree_child(second, 1), Some(NodeId(10)));
    assert_eq!(rt; caches.runs(), 1);
    assert_eq!(rt; caches.thin(), None);
    caches.set_tree_children(second, &[NodeId(6)]);
    assert_eq!(rt; caches.thin(), Some(second));
    Ok(())
}

#[test]
fn nodes_of_pages_become_working_ones(rt: HostRuntime) -> Result<(), Fail> {
    let mut caches = Caches::new(rt.alloc());
    caches.reserve(1, 3)?;
    let cache = caches.make_temp(3);
    let first = caches.node_of(cache, PageNo(0));
    let count = caches.stretch(first);
    assert_eq!(rt; count, 3);
    caches.to_working_many(first, count);
    assert_eq!(rt; caches.name(first), NodeName::Working(1));
    assert_eq!(rt; caches.runs(), 1);
    assert_eq!(rt; caches.thin(), Some(first));
    caches.set_tree_children(first, &[NodeId(5), NodeId(9)]);
    assert_eq!(rt; caches.thin(), Some(NodeId(first.0 + 1)));
    Ok(())
}
