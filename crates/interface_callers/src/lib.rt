//! What those have in common that stand on the interface alone: a call of the manager was answered,
//! and it may be called again; the machine is alike but for the bytes of its pages; some of its
//! caches are hidden from the commands that are passed on. The crate has lemmas and no functions.
#![tactic(auto)]
