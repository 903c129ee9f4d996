// A port, and the caches in which its messages wait.
use std::collections::VecDeque;
use vm_ids::CacheId;

// A message waits in a temporary cache of its pages that no region maps.
#[derive(Clone, Copy)]
pub(crate) struct Message {
    pub(crate) cache: CacheId,
    pub(crate) pages: u32,
}

// The messages that wait, the first sent first: at most `depth` of them.
#[derive(Drop)]
pub(crate) struct Port {
    pub(crate) depth: u32,
    pub(crate) messages: VecDeque<Message>,
}
