//! Sources of the text of a configuration, and one whose results contracts see.
ghost use Rattle.std.specs.Prelude.{◌≡◌, [], ◌∷◌, ◌++◌, List, Some, None};
ghost use base.Fml.{ftrue};
ghost use Rattle.log4rs_settings.specs.Answers.{Answer, Answered, modified_answer, read_answer, ToldOne};
ghost use Rattle.log4rs_settings.specs.GhostAnswers.{answer_noted, answers_coded};

use log4rs_base::OutOfMemory;
use std::io;
use std::marker::{Model, PhantomData};
use thiserror::Error;

/// Errors of a source.
#[derive(Clone, Copy, Debug, PartialEq, Eq, Error)]
pub enum SourceError {
    /// The source could not be read.
    #[error("the source refused")]
    Refused,
    /// An allocation failed.
    #[error("{}", OutOfMemory)]
    Memory,
}

/// The text of a configuration, with a stamp that changes when the text may have changed.
pub trait ConfigSource {
    // The answers given so far, for a source that tells them.
    ghost answers: { Self → Answered } = { λ _. None };

    /// Returns the stamp of the text. Stamps are compared only for equality.
    fn modified(&mut self) -> Result<u64, SourceError>
        ensures { ToldOne (answers self.old) (answers self.new) (modified_answer result) };

    /// Returns the text.
    fn read(&mut self) -> Result<String, SourceError>
        ensures { ToldOne (answers self.old) (answers self.new) (read_answer result) };

    /// Returns the cause of the last failure, if the last call failed and the source knows the
    /// cause.
    fn last_fault(&self) -> Option<&io::Error> {
        None
    }

    /// Returns whether the folders of two files lie on two devices, so that no rename leads from one
    /// to the other. Returns `false` if the source knows no files, or the system does not tell it.
    fn are_on_two_devices(&self, _first: &str, _second: &str) -> bool {
        false
    }
}

/// One result of a source.
#[derive(Drop)]
enum Note<'a> {
    Modified(&'a Result<u64, SourceError>),
    Read(&'a Result<String, SourceError>),
}

/// Results in order, visible to contracts. A ghost value without bytes.
struct GhostAnswers {
    marker: PhantomData<()>,
    ghost answers: { List Answer } by { answers_coded },
}

impl Model for GhostAnswers {
    ghost also_owns = { λ _. ftrue };
}

impl GhostAnswers {
    /// Returns no results.
    fn none() -> GhostAnswers
        ensures { result.answers ≡ [] }
    {
        GhostAnswers {
            marker: PhantomData,
        }
    }

    /// Returns these results and one more.
    fn and(&self, note: &Note<'_>) -> GhostAnswers
        ensures { result.answers ≡ self.now.answers ++ answer_noted note.now ∷ [] }
    {
        let _ = note;
        GhostAnswers {
            marker: PhantomData,
        }
    }
}

impl Drop for GhostAnswers {
    fn drop(self) {
        let Self { marker: _ } = self;
    }
}

// It owns nothing, and nothing can be changed through it: any thread may have or share it.
unsafe impl Send for GhostAnswers {}

unsafe impl Sync for GhostAnswers {}

/// Makes each result of the source inside visible to contracts. Ghost-only: it allocates nothing.
#[derive(Drop)]
pub struct NotedSource<S> {
    inner: S,
    answers: GhostAnswers,
}

impl<S> NotedSource<S> {
    ghost use Rattle.log4rs_settings.specs.NotedSource.{inner_of, answers_of};

    /// Wraps a source that was not read yet.
    pub fn new(inner: S) -> NotedSource<S>
        ensures inner { inner_of result ≡ inner }
        ensures none { answers_of result ≡ [] }
    {
        NotedSource {
            inner,
            answers: GhostAnswers::none(),
        }
    }

    /// Returns the source inside.
    pub fn inner(&self) -> &S
        ensures { result.now ≡ inner_of self.now }
    {
        &self.inner
    }
}

impl<S: ConfigSource> ConfigSource for NotedSource<S> {
    ghost use Rattle.log4rs_settings.specs.NotedSource.{answers_of, inner_of};

    ghost answers = { λ source. Some (answers_of source) };

    fn modified(&mut self) -> Result<u64, SourceError>
        ensures told { answers_of self.new ≡ answers_of self.old ++ modified_answer result ∷ [] }
        // It is the answer of the source inside.
        ensures inner { ToldOne (S.answers (inner_of self.old)) (S.answers (inner_of self.new))
            (modified_answer result) }
    {
        let answer = self.inner.modified();
        self.answers = self.answers.and(&Note::Modified(&answer));
        answer
    }

    fn read(&mut self) -> Result<String, SourceError>
        ensures told { answers_of self.new ≡ answers_of self.old ++ read_answer result ∷ [] }
        ensures inner { ToldOne (S.answers (inner_of self.old)) (S.answers (inner_of self.new))
            (read_answer result) }
    {
        let answer = self.inner.read();
        self.answers = self.answers.and(&Note::Read(&answer));
        answer
    }

    fn last_fault(&self) -> Option<&io::Error> {
        self.inner.last_fault()
    }

    fn are_on_two_devices(&self, first: &str, second: &str) -> bool {
        self.inner.are_on_two_devices(first, second)
    }
}
