//! Gates: one that lets all pass, and some that hold a role until another got on.

mod append;
mod open;
mod pair;
mod turns;

pub use append::AppendGate;
pub use open::OpenGate;
pub use pair::PairGate;
