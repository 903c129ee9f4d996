//! The page frames: memory for so many pages, one region for which room is taken once at opening.
//! The bytes of a frame are there from when it, or one behind it, is first written; until then they
//! are zeros that take no memory.
//!
//! A frame is free, or held by someone with the bytes of a page in it. A held frame may be pinned,
//! which keeps it from being chosen as a victim of eviction. Frames are numbered from 0.
//!
//! The model is [`Frames`](specs): the page size in bytes, and for each frame whether it is held,
//! whether it is pinned, and its bytes. Each call changes what it names of the named frame alone.
//! How a free frame is found is no part of it. Which frames may be evicted follows from the model,
//! and is kept as a list with the count of them, so that nobody looks through the frames. This
//! crate stands on the plain types and on `number_pool`; the layer above, `residency`, decides
//! which page is in which frame.
#![tactic(auto)]

mod marks;
mod part;
mod pool;
mod region;

pub use pool::FramePool;
