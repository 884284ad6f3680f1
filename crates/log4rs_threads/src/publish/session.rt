//! Sessions: callers that log by the published configuration.

ghost use Rattle.std.specs.Prelude.{◌≡◌, ◌<◌, All, IfOk, MatchResult, OnOk, length, map};
ghost use Rattle.log4rs_config.specs.Name.{path_of};
ghost use Rattle.log4rs_config.specs.Routing.{deliveries, level_at, places_at};
ghost use Rattle.log4rs_threads.specs.Swaps.{StartsWith};
ghost use Rattle.log4rs_threads.specs.States.{admits, after_swaps};
ghost use Rattle.log4rs_threads.specs.Steps.{AreDeliveries};

use crate::answers::Answers;
use crate::doors::{Doors, deliver_by};
use crate::error::SessionError;
use crate::loaded::LocksOf;
use crate::publish::publisher::{SharedOf, Told};
use crate::publish::session_report::SessionReport;
use crate::{Subscriber, SubscriberGuard};
use log::LevelFilter;
use log4rs_append::{AnyAppender, Append};
use log4rs_base::filter::{AnyFilter, Filter};
use log4rs_base::{Context, Record};
use log4rs_config::runtime::Configured;
use std::alloc::Global;
use std::marker::Model;
use std::sync::{Arc, Wait};

/// Returns the level of the logger that governs a target, or the root's, and the indices of its
/// appenders, by the last swap or else by the opening's lists.
fn route_by<'a, A: Append, F: Filter>(
    shared: &'a SharedOf<A, F>,
    guard: &'a SubscriberGuard,
    target: &str,
) -> (LevelFilter, &'a [usize])
    requires { guard.now.names
        ≡ (⟦<SharedOf<A, F> as Configured>⟧.settings shared.now).appenders }
    ensures level { result.0
        ≡ level_at (after_swaps (⟦<SharedOf<A, F> as Configured>⟧.settings shared.now)
        guard.now.seen) (path_of target.now) }
    ensures places { result.1.now
        ≡ places_at (after_swaps (⟦<SharedOf<A, F> as Configured>⟧.settings shared.now)
        guard.now.seen) (path_of target.now) }
    ensures within { All (λ at. at
        < length (⟦<SharedOf<A, F> as Configured>⟧.settings shared.now).appenders)
        result.1.now }
{
    match guard.lists() {
        Some(lists) => lists.route(target),
        None => shared.lists().route(target),
    }
}

/// Delivers a record by the configuration that is published when the reader enters.
fn log_by<A: Append, F: Filter, W: Wait, D: Doors>(
    rt: &W,
    alloc: Global,
    shared: &SharedOf<A, F>,
    subscriber: Subscriber,
    doors: &mut D,
    logged: &Record,
    context: &Context<'_>,
) -> (Subscriber, Result<SessionReport, SessionError>)
    requires size { D.size doors.old
        ≡ length (⟦<SharedOf<A, F> as Configured>⟧.settings shared.now).appenders }
    requires names { subscriber.names
        ≡ (⟦<SharedOf<A, F> as Configured>⟧.settings shared.now).appenders }
    ensures size { D.size doors.new ≡ D.size doors.old }
    ensures tells { D.tells doors.old → D.tells doors.new }
    ensures same { result.0 ≡ record subscriber { seen = result.0.seen } }
    ensures seen { StartsWith result.0.seen subscriber.seen }
    ensures told { OnOk result.1 (StartsWith result.0.seen subscriber.told) }
    ensures swaps { IfOk result.1 (λ report. report.swaps ≡ length result.0.seen) }
    ensures delivered { let seen = ⟦<SharedOf<A, F> as Configured>⟧ in MatchResult result.1
        (λ report. AreDeliveries (deliveries (after_swaps (seen.settings shared.now) result.0.seen)
        (seen.admits shared.now) logged.now) logged.now context.now (D.tells doors.old)
        (D.steps doors.old) (D.steps doors.new) report.deliveries.items)
        (λ _. D.tells doors.old → D.steps doors.new ≡ D.steps doors.old) }
{
    let guard = match subscriber.enter(rt) {
        Ok(guard) => guard,
        Err(subscriber) => return (subscriber, Err(SessionError::Closed)),
    };
    let swaps = guard.swaps();
    let mut answers = Answers::new(alloc);
    let (limit, places) = route_by(shared, &guard, &logged.target);
    let locked = shared.appenders();
    let delivered = deliver_by(locked, limit, places, doors, &mut answers, logged, context);
    let subscriber = guard.leave();
    match delivered {
        Ok(()) => (
            subscriber,
            Ok(SessionReport {
                swaps,
                deliveries: answers.deliveries,
            }),
        ),
        Err(_) => (subscriber, Err(SessionError::Memory)),
    }
}

/// A caller that logs by its publisher's configuration, over the opening's appenders `A` behind
/// filters `F`, with runtime `W`.
#[derive(Drop)]
pub struct SessionOf<A, F, W> {
    pub(crate) rt: W,
    pub(crate) alloc: Global,
    /// `Some` between calls.
    pub(crate) subscriber: Option<Subscriber>,
    pub(crate) shared: Arc<SharedOf<A, F>>,
}

/// A session over stores `S`.
pub type Session<S, W> = SessionOf<AnyAppender<S>, AnyFilter, W>;

impl<A, F, W> Model for SessionOf<A, F, W> {
    ghost use Rattle.std.specs.Prelude.{◌≡◌, IsSomeAnd};
    ghost use Rattle.std.specs.Arc.{arc_value};
    ghost use Rattle.std.specs.Option.{option_map_or};
    ghost use Rattle.log4rs_config.specs.Builder.{config_settings};
    ghost use Rattle.log4rs_threads.specs.States.{SessionState, config_filters, nothing, session_of};

    ghost Value = { SessionState F };

    ghost view = { λ s. session_of (config_settings (arc_value s.shared))
        (config_filters (arc_value s.shared))
        (option_map_or (λ known. known) s.subscriber nothing) };

    ghost invariant = { λ s. IsSomeAnd s.subscriber
        (λ known. known.names ≡ (config_settings (arc_value s.shared)).appenders) };
}

impl<A, F, W> SessionOf<A, F, W> {
    /// Takes in what the publisher told: from now on the session uses no older configuration. Never
    /// waits and allocates nothing.
    pub fn learn(&mut self, told: Told)
        requires { told.book ≡ self.old.book }
        ensures told { StartsWith self.new.told self.old.told }
        ensures more { StartsWith self.new.told told.swaps }
        ensures same { self.new ≡ record self.old { told = self.new.told } }
    {
        let mut subscriber = self.subscriber.take().unwrap();
        subscriber.learn(told);
        self.subscriber = Some(subscriber);
    }
}

impl<A: Append, F: Filter, W> SessionOf<A, F, W> {
    /// Returns the number of the opening's appenders.
    pub fn size(&self) -> usize
        ensures { result ≡ length self.now.opening.appenders }
    {
        self.shared.appenders().len()
    }
}

impl<A: Append, F: Filter, W: Wait> SessionOf<A, F, W> {
    /// Makes one step for each delivery of the record, in order, also after a failure, by the
    /// opening configuration with the root and loggers of the last swap that it sees. It sees all
    /// swaps that it saw before and all that it was told of. Fails with `Memory` if an allocation
    /// failed, or with `Closed` if the publisher has ended; then no step was made.
    pub fn log_on<D: Doors>(
        &mut self,
        doors: &mut D,
        logged: &Record,
        context: &Context<'_>,
    ) -> Result<SessionReport, SessionError>
        requires { D.size doors.old ≡ length self.old.opening.appenders }
        ensures size { D.size doors.new ≡ D.size doors.old }
        ensures tells { D.tells doors.old → D.tells doors.new }
        ensures same { self.new ≡ record self.old { seen = self.new.seen } }
        ensures seen { StartsWith self.new.seen self.old.seen }
        ensures told { OnOk result (StartsWith self.new.seen self.old.told) }
        ensures swaps { IfOk result (λ report. report.swaps ≡ length self.new.seen) }
        ensures delivered { MatchResult result
            (λ report. AreDeliveries
            (deliveries (after_swaps self.old.opening self.new.seen)
            (admits F.answer self.old.filters) logged.now)
            logged.now context.now (D.tells doors.old) (D.steps doors.old) (D.steps doors.new)
            report.deliveries.items)
            (λ _. D.tells doors.old → D.steps doors.new ≡ D.steps doors.old) }
    {
        let subscriber = self.subscriber.take().unwrap();
        let (subscriber, result) = log_by(
            &self.rt,
            self.alloc,
            &*self.shared,
            subscriber,
            doors,
            logged,
            context,
        );
        self.subscriber = Some(subscriber);
        result
    }

    /// Appends the record once for each delivery, each under its appender's lock, as `log_on` does
    /// on doors. Fails with `Memory` or `Closed`; then nothing was appended.
    pub fn log(
        &mut self,
        logged: &Record,
        context: &Context<'_>,
    ) -> Result<SessionReport, SessionError>
        ensures same { self.new ≡ record self.old { seen = self.new.seen } }
        ensures seen { StartsWith self.new.seen self.old.seen }
        ensures told { OnOk result (StartsWith self.new.seen self.old.told) }
        ensures swaps { IfOk result (λ report. report.swaps ≡ length self.new.seen) }
        ensures places { IfOk result (λ report. map (λ d. d.0) report.deliveries.items
            ≡ deliveries (after_swaps self.old.opening self.new.seen)
            (admits F.answer self.old.filters) logged.now) }
    {
        let subscriber = self.subscriber.take().unwrap();
        let shared = &*self.shared;
        let mut locks = LocksOf::new(&self.rt, shared.appenders());
        let (subscriber, result) = log_by(
            &self.rt, self.alloc, shared, subscriber, &mut locks, logged, context,
        );
        self.subscriber = Some(subscriber);
        result
    }
}
