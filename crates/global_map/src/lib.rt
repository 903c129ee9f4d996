//! The global map: which page node is in which page frame.
//!
//! A node is bound to at most one frame and a frame to at most one node. In Abrossimov, Rozier and
//! Shapiro's manager (SOSP 1989) the map finds a page by its cache and offset; here the cache finds
//! the page's node, and this map the node's frame, if it is in one.
//!
//! The model is a list: for each frame, the node that is bound to it, or none. Each call changes
//! what it names of the named node or frame alone. How a node is found is no part of it: a hash
//! table beside the list, of `probe_table`, leads from a node to its frame, so that no call scans
//! the frames. The layer above, `residency`, decides which node is bound.
#![tactic(auto)]

mod map;

pub use map::GlobalMap;
