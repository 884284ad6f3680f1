//! The configuration that a logger logs by, and the greatest and the least of its levels.

use crate::current::CurrentOf;
use crossbeam_utils::CachePadded;
use log::{Level, LevelFilter};
use log4rs_append::Append;
use log4rs_base::OutOfMemory;
use log4rs_base::filter::Filter;
use log4rs_config::RoutedLists;
use log4rs_config::runtime::shared::{enter_all, leave_all};
use std::alloc::Global;
use std::mem;
use std::sync::atomic::{AtomicU8, AtomicUsize, Ordering};
use std::sync::{Arc, Mutex, MutexGuard, RwLock, RwLockReadGuard, Wait};

/// So many loggers load the configuration without writing to a word that another of them writes to.
const SEATS: usize = 8;

/// A configuration, counted apart for each seat.
pub(crate) type Seated<A, F, H> = Arc<Arc<CurrentOf<A, F, H>>>;

/// A place from which loggers load the configuration.
type Seat<A, F, H> = CachePadded<RwLock<Seated<A, F, H>>>;

/// A configuration behind locks, and the greatest and the least of its levels.
///
/// Each logger loads it from a seat, which has a lock and a count of its own. A swap locks all of
/// them before it changes one, so it is one step.
///
/// The levels stand in one word, which is written under these locks, in the step that swaps the
/// configuration. So whoever reads it reads levels of the present configuration, as under a lock.
#[derive(Drop)]
pub(crate) struct PresentOf<A, F, H> {
    alloc: Global,
    seats: [Seat<A, F, H>; SEATS],
    /// Locked by who makes a configuration of the present one and puts it in its place.
    swaps: Mutex<()>,
    /// How many seats were given. The first logger has the first.
    given: AtomicUsize,
    /// The number of the greatest of all levels, and 16 times that of the least, away from the words
    /// of the locks.
    levels: CachePadded<AtomicU8>,
}

/// Returns the number of the greatest of all levels, and 16 times that of the least.
fn levels(lists: &RoutedLists) -> u8 {
    let mut least = lists.root().level();
    for logger in lists.loggers() {
        least = least.min(logger.level());
    }
    (least as u8) << 4 | lists.max_log_level() as u8
}

/// Returns the configuration for one seat.
fn seated<A: Drop, F: Drop, H: Drop>(
    alloc: Global,
    current: &Arc<CurrentOf<A, F, H>>,
) -> Result<Seated<A, F, H>, OutOfMemory> {
    Ok(Arc::new(alloc, Arc::try_clone(current)?)?)
}

/// Returns a seat with the configuration.
fn seat<A: Drop, F: Drop, H: Drop>(
    alloc: Global,
    current: &Arc<CurrentOf<A, F, H>>,
) -> Result<Seat<A, F, H>, OutOfMemory> {
    Ok(CachePadded::new(RwLock::new(seated(alloc, current)?)))
}

/// Returns the configuration once for each seat.
fn for_each_seat<A: Drop, F: Drop, H: Drop>(
    alloc: Global,
    current: &Arc<CurrentOf<A, F, H>>,
) -> Result<Vec<Seated<A, F, H>>, OutOfMemory> {
    let mut each = Vec::with_capacity(alloc, SEATS)?;
    for _ in 0..SEATS {
        each.push(seated(alloc, current)?)?;
    }
    Ok(each)
}

impl<A: Append + Drop, F: Filter + Drop, H: Drop> PresentOf<A, F, H> {
    /// Makes this the present configuration.
    pub(crate) fn new(
        alloc: Global,
        current: &Arc<CurrentOf<A, F, H>>,
    ) -> Result<PresentOf<A, F, H>, OutOfMemory> {
        let levels = AtomicU8::new(levels(current.lists()));
        enter_all(current.appenders());
        let seats = [
            seat(alloc, current)?,
            seat(alloc, current)?,
            seat(alloc, current)?,
            seat(alloc, current)?,
            seat(alloc, current)?,
            seat(alloc, current)?,
            seat(alloc, current)?,
            seat(alloc, current)?,
        ];
        Ok(PresentOf {
            alloc,
            seats,
            swaps: Mutex::new(()),
            given: AtomicUsize::new(1),
            levels: CachePadded::new(levels),
        })
    }

    /// Returns the configuration of a seat. Its lock is free again when this returns.
    pub(crate) fn load<W: Wait>(
        &self,
        rt: &W,
        seat: usize,
    ) -> Result<Seated<A, F, H>, OutOfMemory> {
        Ok(Arc::try_clone(&*self.read(rt, seat))?)
    }

    /// Swaps the configuration. Returns the previous one. Waits for each seat's lock. The appenders
    /// of the next one are counted as in force before, those of the previous one no longer after, so
    /// one that both have is in force throughout. If an allocation fails, nothing changes.
    pub(crate) fn swap<W: Wait>(
        &self,
        rt: &W,
        _turn: &MutexGuard<'_, ()>,
        next: Arc<CurrentOf<A, F, H>>,
    ) -> Result<Arc<CurrentOf<A, F, H>>, OutOfMemory> {
        let old = Arc::try_clone(&**self.read(rt, 0))?;
        let each = for_each_seat(self.alloc, &next)?;
        let mut seats = Vec::with_capacity(self.alloc, SEATS)?;
        for seat in &self.seats {
            seats.push(seat.write(rt))?;
        }
        enter_all(next.appenders());
        self.levels.store(levels(next.lists()), Ordering::SeqCst);
        for (seat, current) in seats.iter_mut().zip(each) {
            **seat = current;
        }
        leave_all(old.appenders());
        Ok(old)
    }
}

impl<A: Append, F: Filter, H> PresentOf<A, F, H> {
    /// Returns the next seat in turn.
    pub(crate) fn seat(&self) -> usize {
        self.given.fetch_add(1, Ordering::SeqCst) % SEATS
    }

    /// Returns whether the level is above the greatest of all levels, so that no target logs it.
    /// Waits for nobody, and writes nothing.
    pub(crate) fn keeps_out(&self, level: Level) -> bool {
        level as u8 > self.levels.load(Ordering::SeqCst) & 15
    }

    /// Returns whether a record of this level is logged, or `None` if that depends on its target.
    /// Waits for nobody, and writes nothing.
    pub(crate) fn answer(&self, level: Level) -> Option<bool> {
        let levels = self.levels.load(Ordering::SeqCst);
        if level as u8 <= levels >> 4 {
            return Some(true);
        }
        if level as u8 > levels & 15 {
            return Some(false);
        }
        None
    }

    /// Locks the configuration of a seat for reading. It may wait for the lock.
    pub(crate) fn read<W: Wait>(
        &self,
        rt: &W,
        seat: usize,
    ) -> RwLockReadGuard<'_, Seated<A, F, H>> {
        self.seats[seat % SEATS].read(rt)
    }

    /// Waits until nobody else swaps the configuration, and lets nobody else do so meanwhile.
    pub(crate) fn turn<W: Wait>(&self, rt: &W) -> MutexGuard<'_, ()> {
        self.swaps.lock(rt)
    }
}
