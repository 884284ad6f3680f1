//! A journal that threads share: texts are appended, stay where they are, and are read without
//! waiting.
#![tactic(auto)]

pub mod appender;
mod carried;
pub mod error;
pub mod journal;
pub mod note;
pub mod receipt;
pub mod walk;

pub use appender::JournalAppender;
pub use error::JournalError;
pub use journal::SharedJournal;
pub use note::Note;
pub use receipt::Receipt;
pub use walk::{Notes, Shown};
