//! The regions of one actor: which pages of which caches stand at which addresses.
//!
//! A region is a row of pages of a cache, mapped at an address, with what is allowed there and
//! whether it is locked. An actor's regions stand in order of start address, and no two of them
//! share an address, so the one that holds an address is found by a search in halves, and so are
//! the two that a new one might touch, and a region by its number, of which the caller says where
//! it starts. They stand in leaves (`stretches`), so that one that comes or goes moves those of one
//! leaf. The one that held an address last is looked at first. Only `reserve` takes memory, and it
//! makes room for one region more.
//!
//! The model is an address space: the bytes of a page, the spare room, and the list of regions as
//! the plain machine has it (`vm_model`), in whose words every call says what it does. Of each
//! [`RegionMap`] it holds that its regions are whole pages within the addresses, in order and
//! apart. This crate stands on `stretches`, `vm_ids` and the definitions of `vm_model`; `contexts`
//! stands on it and has one for each living actor.
#![tactic(auto)]

mod map;
mod region;
mod search;

pub use map::RegionMap;
pub use region::{Place, RegionView};
