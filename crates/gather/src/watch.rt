//! Watches of a session: the crate `watches` has them.

pub use watches::stands::Stands;
pub use watches::watch::{Gone, Told, Watch};
