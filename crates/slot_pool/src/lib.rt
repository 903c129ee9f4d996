//! The swap slots: numbered places of a mapper where pages wait that are in no frame.
//!
//! A slot is held by one page, or free. The pool keeps which slots are held and not what is in
//! them: a mapper keeps that. Slots are numbered from 0, and those below the capacity are the
//! pool's.
//!
//! The model is a list: of each slot below the capacity, whether it is held. Each call changes what
//! it names of the named slot alone. How a free slot is found is no part of it. This crate stands
//! on the plain types and on `number_pool`; the layer above, `residency`, decides which page is in
//! which slot.
#![tactic(auto)]

mod pool;

pub use pool::SlotPool;
