//! Paths: the names and times in them, their parents, and whether one waits at them.

pub mod env;
pub mod fifo;
pub mod parent;
pub mod time;

pub use env::expand_env_vars;
pub use fifo::is_fifo;
pub use parent::parent_of;
pub use time::expand_time;
