//! The builder of appenders to rolled files.

ghost use Rattle.std.specs.Prelude.{◌≡◌, true, IfOk, IfErr, IsTrue};
ghost use Rattle.log4rs_rolling.specs.Faults.{IsOfStore};
ghost use Rattle.log4rs_rolling.specs.AtOpening.{AskedThenOpened, AskedThenTried, RollsAtOnce};
ghost use Rattle.log4rs_append.specs.Rolling.{maker_of, appends_of};
ghost use Rattle.log4rs_append.specs.Sink.{bytes_of, plain_reading};
ghost use Rattle.log4rs_base.specs.Names.{expanded_names};

use crate::append::Append;
use crate::choice::{DefaultEncoder, Given, MakeEncoder};
use crate::rolling_file::RollingFileAppender;
use log4rs_base::{LogError, expand_env_vars};
use log4rs_encode::Encode;
use log4rs_encode::pattern::PatternEncoder;
use log4rs_rolling::folder::make_parent;
use log4rs_rolling::store::Store;
use log4rs_rolling::{CompoundPolicyOf, DeleteRoller, MemStore, Policy, SizeTrigger};
use std::alloc::Global;
use std::collections::BTreeMap;

/// Builds an appender to a rolled file.
#[derive(Drop)]
pub struct RollingFileAppenderBuilder<M> {
    alloc: Global,
    encoder: M,
    append: bool,
}

impl RollingFileAppender<MemStore, CompoundPolicyOf<SizeTrigger, DeleteRoller>, PatternEncoder> {
    /// Creates a builder with the default pattern and append mode. The store and the policy may be
    /// any.
    pub fn builder(alloc: Global) -> RollingFileAppenderBuilder<DefaultEncoder>
        ensures append { appends_of result ≡ true }
    {
        RollingFileAppenderBuilder {
            alloc,
            encoder: DefaultEncoder,
            append: true,
        }
    }
}

impl<M: MakeEncoder + Drop> RollingFileAppenderBuilder<M> {
    ghost use Rattle.log4rs_append.specs.Rolling.{store_of, policy_of, encoder_of, begun_empty, IsBegun};

    /// Sets the encoder.
    pub fn encoder<E: Encode>(self, encoder: E) -> RollingFileAppenderBuilder<Given<E>>
        ensures encoder { maker_of result ≡ record { 0 = encoder } }
        ensures append { appends_of result ≡ appends_of self }
    {
        RollingFileAppenderBuilder {
            alloc: self.alloc,
            encoder: Given(encoder),
            append: self.append,
        }
    }

    /// Sets whether the file keeps its contents. If not, it is emptied each time it is opened.
    pub fn append(self, append: bool) -> RollingFileAppenderBuilder<M>
        ensures encoder { maker_of result ≡ maker_of self }
        ensures append { appends_of result ≡ append }
    {
        RollingFileAppenderBuilder {
            alloc: self.alloc,
            encoder: self.encoder,
            append,
        }
    }

    /// Opens the file at this path, and creates its appender. In the path, each `$ENV{name}` is
    /// expanded. Creates the directory of the file, if the path names one, and has the policy
    /// complete a rotation that an earlier appender left in the background. Fails with `Store` if
    /// the store refuses, with `Memory` if an allocation fails, or with the error of a policy of
    /// the caller; the store is then dropped.
    pub fn build<S: Store + Drop, P: Policy<S> + Drop>(
        self,
        path: &str,
        store: S,
        policy: P,
        env: &BTreeMap<String, String>,
    ) -> Result<RollingFileAppender<S, P, M::Made>, LogError>
    where
        M::Made: Drop,
        ensures encoder { IfOk result (λ a. M.makes (maker_of self)
            (M.Made.rendering (encoder_of a))) }
        // A built-in policy that rolls at once is unchanged.
        ensures policy { IfOk result (λ a. P.beside policy (policy_of a)
            × (RollsAtOnce (P.keeping policy) (expanded_names env.now path.now)
            → policy_of a ≡ policy)) }
        ensures kind { IfOk result (λ a. (P.asking (policy_of a)).kind ≡ (P.asking policy).kind) }
        ensures asked { IfOk result (λ a. AskedThenOpened (P.keeping policy)
            (P.keeping (policy_of a)) (expanded_names env.now path.now) (appends_of self)
            (S.disk store) (S.disk (store_of a))) }
        ensures begun { IfOk result (IsBegun S.disk store policy (expanded_names env.now path.now)
            (appends_of self)) }
        ensures texts { IfOk result (λ a.
            (⟦<RollingFileAppender<S, P, M::Made> as Append>⟧.sink a).texts
            ≡ bytes_of (plain_reading (M.Made.rendering (encoder_of a)))
            (begun_empty (P.keeping policy).is_built_in (S.disk store))) }
        ensures fault { IsTrue (P.keeping policy).is_built_in → IfErr result IsOfStore }
    {
        match self.build_in(path, store, policy, env) {
            Ok(appender) => Ok(appender),
            Err(refused) => Err(refused.1),
        }
    }

    /// Builds as `build` does, and returns the store with an error. Then at most what comes before
    /// the opening was done.
    fn build_in<S: Store + Drop, P: Policy<S> + Drop>(
        self,
        path: &str,
        store: S,
        policy: P,
        env: &BTreeMap<String, String>,
    ) -> Result<RollingFileAppender<S, P, M::Made>, (S, LogError)>
    where
        M::Made: Drop,
        ensures encoder { IfOk result (λ a. M.makes (maker_of self)
            (M.Made.rendering (encoder_of a))) }
        // A built-in policy that rolls at once is unchanged.
        ensures policy { IfOk result (λ a. P.beside policy (policy_of a)
            × (RollsAtOnce (P.keeping policy) (expanded_names env.now path.now)
            → policy_of a ≡ policy)) }
        ensures kind { IfOk result (λ a. (P.asking (policy_of a)).kind ≡ (P.asking policy).kind) }
        ensures asked { IfOk result (λ a. AskedThenOpened (P.keeping policy)
            (P.keeping (policy_of a)) (expanded_names env.now path.now) (appends_of self)
            (S.disk store) (S.disk (store_of a))) }
        ensures begun { IfOk result (IsBegun S.disk store policy (expanded_names env.now path.now)
            (appends_of self)) }
        ensures texts { IfOk result (λ a.
            (⟦<RollingFileAppender<S, P, M::Made> as Append>⟧.sink a).texts
            ≡ bytes_of (plain_reading (M.Made.rendering (encoder_of a)))
            (begun_empty (P.keeping policy).is_built_in (S.disk store))) }
        ensures fault { IsTrue (P.keeping policy).is_built_in → IfErr result
            (λ refused. IsOfStore refused.1) }
        ensures tried { IfErr result (λ refused. AskedThenTried (P.keeping policy)
            (expanded_names env.now path.now) (appends_of self) (S.disk store)
            (S.disk refused.0)) }
    {
        let Ok(path) = expand_env_vars(self.alloc, path, env) else {
            return Err((store, LogError::Memory));
        };
        let Ok(encoder) = self.encoder.make(self.alloc) else {
            return Err((store, LogError::Memory));
        };
        let mut store = store;
        if let Err(fault) = make_parent(&path, &mut store) {
            return Err((store, fault));
        }
        RollingFileAppender::open(self.alloc, store, policy, path, self.append, encoder)
    }
}
