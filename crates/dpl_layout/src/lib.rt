// Layouts: how a run's locales are laid out, and which map a root gets, a declared domain or array with a map of its own.
#![tactic(auto)]

mod corner;
mod layout;
mod maps;
mod named;

pub use corner::{from_least, least};
pub use layout::Layout;
pub use maps::Maps;
pub use named::Named;
