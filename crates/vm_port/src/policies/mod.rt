// Policies: of eviction, and of what is delivered next.
mod clock;
mod fifo;
mod listed;
mod listed_turns;
mod rotor;

pub use clock::Clock;
pub use fifo::Fifo;
pub use listed::Listed;
pub use listed_turns::ListedTurns;
pub use rotor::Rotor;
