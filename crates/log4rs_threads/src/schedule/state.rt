//! The state of a run.

ghost use Rattle.std.specs.Prelude.{◌≡◌, ◌+◌, ◌<◌, ℕ, All, length, slice_get, vec_len, OnOk, IfSome, Some, false, nat_lt, if◌then◌else◌, option_map, option_and_then};
ghost use Rattle.std.specs.BTreeMap.{get, is_at};
ghost use Rattle.std.specs.Ordering.{nat_cmp};
ghost use Rattle.log4rs_threads.specs.Schedule.{places_of};
ghost use Rattle.log4rs_threads.specs.Running.{shapes_in, size_at, texts_at, texts_after, has_left, next_of, stepped, loaded, put_of};

use crate::schedule::event::Event;
use crate::schedule::installed::Installed;
use log4rs_base::{Entry, OutOfMemory};
use std::alloc::Global;
use std::collections::{BTreeMap, VecDeque};
use std::marker::Model;

/// The rest of a caller's last effective load.
#[derive(Drop)]
pub(crate) struct Call {
    /// The position of the load.
    load: usize,
    shape: usize,
    /// The indices that are still to be delivered to.
    rest: VecDeque<usize>,
}

impl Model for Call {
    ghost use Rattle.log4rs_threads.specs.Pending.{Pending};

    ghost Value = { Pending };

    ghost view = { λ c. record { load = c.load; shape = c.shape; rest = c.rest.items } };
}

/// One delivery of a load.
#[derive(Clone, Copy)]
pub(crate) struct Delivery {
    load: usize,
    shape: usize,
    place: usize,
}

/// The current shape, the rest of each caller's load, and the configurations.
#[derive(Drop)]
pub(crate) struct State {
    pub(crate) shape: usize,
    pub(crate) calls: BTreeMap<u64, Call>,
    pub(crate) all: Vec<Installed>,
}

/// Returns whether a caller has deliveries left.
fn is_busy(calls: &BTreeMap<u64, Call>, caller: u64) -> bool
    ensures { result ≡ has_left (get nat_cmp calls.now caller) }
{
    match calls.get(&caller) {
        Some(call) => !call.rest.is_empty(),
        None => false,
    }
}

/// Takes a caller's next delivery, if one is left.
fn advance(calls: &mut BTreeMap<u64, Call>, caller: u64) -> Option<Delivery>
    ensures delivery { result ≡ option_and_then next_of (get nat_cmp calls.old caller) }
    ensures calls { (q : ℕ) → get nat_cmp calls.new q ≡ (if is_at (nat_cmp caller) q
        then option_map stepped (get nat_cmp calls.old q) else get nat_cmp calls.old q) }
{
    let call = calls.get_mut(&caller)?;
    let place = call.rest.pop_front()?;
    Some(Delivery {
        load: call.load,
        shape: call.shape,
        place,
    })
}

/// Appends an entry at an index of a shape.
fn append(
    all: &mut Vec<Installed>,
    shape: usize,
    place: usize,
    entry: &Entry<'_>,
) -> Result<(), OutOfMemory>
    requires { place < size_at (shapes_in all.old.items) shape }
    ensures shapes { shapes_in all.new.items ≡ shapes_in all.old.items }
    ensures texts { OnOk result ((s p : ℕ) → texts_at all.new.items s p
        ≡ texts_after s p (Some (record { shape = shape; place = place; entry = entry.now }))
        (texts_at all.old.items s p)) }
{
    let installed = &mut all[shape];
    installed.append(place, &entry.logged, &entry.context)
}

impl State {
    ghost use Rattle.log4rs_threads.specs.Running.{IsRun};

    /// Has a caller load the current shape, if it has no deliveries left.
    fn load(
        &mut self,
        alloc: Global,
        at: usize,
        caller: u64,
        entry: &Entry<'_>,
    ) -> Result<(), OutOfMemory>
        requires { self.old.shape < vec_len self.old.all }
        ensures shape { self.new.shape ≡ self.old.shape }
        ensures all { self.new.all ≡ self.old.all }
        ensures calls { OnOk result (let places = places_of (Some entry.now)
            (slice_get (shapes_in self.old.all.items) self.old.shape) in (q : ℕ)
            → get nat_cmp self.new.calls q ≡ (if is_at (nat_cmp caller) q
            then loaded (get nat_cmp self.old.calls q)
            (record { load = at; shape = self.old.shape; rest = places })
            else get nat_cmp self.old.calls q)) }
        ensures within { OnOk result (has_left (get nat_cmp self.old.calls caller) ≡ false
            → All (λ at. at < size_at (shapes_in self.old.all.items) self.old.shape)
            (places_of (Some entry.now)
            (slice_get (shapes_in self.old.all.items) self.old.shape))) }
    {
        if is_busy(&self.calls, caller) {
            return Ok(());
        }
        let rest = self.all[self.shape].deliveries(alloc, &entry.logged)?;
        let call = Call {
            load: at,
            shape: self.shape,
            rest,
        };
        self.calls.insert(caller, call)?;
        Ok(())
    }

    /// Makes a caller's next delivery, if one is left.
    fn step(&mut self, events: &[Event<'_>], caller: u64) -> Result<(), OutOfMemory>
        requires { IfSome (get nat_cmp self.old.calls caller)
            (λ call. (call.load < length events.now)
            × All (λ at. at < size_at (shapes_in self.old.all.items) call.shape) call.rest) }
        ensures shape { self.new.shape ≡ self.old.shape }
        ensures shapes { shapes_in self.new.all.items ≡ shapes_in self.old.all.items }
        ensures calls { (q : ℕ) → get nat_cmp self.new.calls q ≡ (if is_at (nat_cmp caller) q
            then option_map stepped (get nat_cmp self.old.calls q)
            else get nat_cmp self.old.calls q) }
        ensures texts { OnOk result ((s p : ℕ) → texts_at self.new.all.items s p
            ≡ texts_after s p (put_of events.now (get nat_cmp self.old.calls caller))
            (texts_at self.old.all.items s p)) }
    {
        let Some(delivery) = advance(&mut self.calls, caller) else {
            return Ok(());
        };
        let Event::Load { caller: _, entry } = &events[delivery.load] else {
            return Ok(());
        };
        append(&mut self.all, delivery.shape, delivery.place, entry)
    }

    /// Makes the shape with this number the current one, if it exists.
    fn swap(&mut self, shape: usize)
        ensures shape { self.new.shape
            ≡ (if nat_lt shape (vec_len self.old.all) then shape else self.old.shape) }
        ensures all { self.new.all ≡ self.old.all }
        ensures calls { self.new.calls ≡ self.old.calls }
    {
        if shape < self.all.len() {
            self.shape = shape;
        }
    }

    /// What happens at a position of the schedule.
    pub(crate) fn act(
        &mut self,
        alloc: Global,
        events: &[Event<'_>],
        at: usize,
    ) -> Result<(), OutOfMemory>
        requires run { IsRun (shapes_in self.old.all.items) events.now at self.old }
        requires event { at < length events.now }
        ensures { OnOk result (IsRun (shapes_in self.old.all.items) events.now (at + 1) self.new) }
    {
        match &events[at] {
            Event::Load { caller, entry } => self.load(alloc, at, *caller, entry),
            Event::Step { caller } => self.step(events, *caller),
            Event::Swap { shape } => {
                self.swap(*shape);
                Ok(())
            }
        }
    }
}
