//! Tests of the adapters to the host, by values from outside: streams that fail or have to wait
//! (`streams`), a mapper over real files (`files`), call by call (`steps`) and in runs (`running`),
//! and a push that a full disk cuts off (`filling`), in folders of their own (`folders`).
#![tactic(auto)]

#[cfg(test)]
mod files;
#[cfg(test)]
mod filling;
#[cfg(test)]
mod folders;
#[cfg(test)]
mod running;
#[cfg(test)]
mod steps;
#[cfg(test)]
mod streams;
