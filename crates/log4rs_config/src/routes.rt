//! Routes: the sorted loggers, which find the level and the places of a target.

ghost use Rattle.std.specs.Prelude.{◌≡◌, ◌<◌, ◌≤◌, ◌-◌, ◌++◌, [], true, All, Contains, Some, IfOk, IfSome, OnOk, length, map, string_bytes, slice_get, slice_index_or, if◌then◌else◌};
ghost use Rattle.std.specs.List.{position_or_len};
ghost use Rattle.std.specs.List.Sorted.{IsPermutation, IsSortedByKey};
ghost use Rattle.std.specs.Option.{option_map_or};
ghost use Rattle.std.specs.Ordering.{is_lt};
ghost use Rattle.std.specs.Str.{bytes_eq};
ghost use Rattle.log4rs_config.specs.Name.{components};
ghost use Rattle.log4rs_config.specs.Routing.{places};
ghost use Rattle.log4rs_config.specs.Above.{AreAbove};
ghost use Rattle.log4rs_config.specs.Laws.{HaveDistinctNames};
ghost use Rattle.log4rs_config.specs.Order.{parts_cmp, Rise};
ghost use Rattle.log4rs_config.specs.Seeks.{IsIndexed};
ghost use Rattle.log4rs_config.specs.Walk.{name_at, walk, chained};

use crate::looked::Looked;
use crate::name::Named;
use crate::order::{Digests, compare};
use crate::runtime::{Logger, Root};
use crate::search::{Keyed, above_of, nearest, nearest_uncounted};
use crate::turns::Turns;
use log::LevelFilter;
use log4rs_base::OutOfMemory;
use std::alloc::Global;
use std::cmp::Ordering;
use std::sync::ledger::Ledger;

/// The level and the places of a logger, or of the root.
#[derive(Drop)]
pub(crate) struct Route {
    pub(crate) level: LevelFilter,
    pub(crate) places: Vec<usize>,
}

/// A logger's name, its place among the loggers, and its route.
#[derive(Drop)]
pub(crate) struct Entry {
    name: String,
    place: usize,
    route: Route,
}

/// The loggers in the order of their components, and the root.
#[derive(Drop)]
pub struct Routes {
    entries: Vec<Entry>,
    digests: Digests,
    root: Route,
    ghost indexed: { IsIndexed digests (map (λ e. string_bytes e.name) entries.items) },
}

impl Keyed for Entry {
    ghost key = { λ e. string_bytes e.name };

    fn key(&self) -> &[u8] {
        self.name.as_bytes()
    }
}

/// A logger, and its place among the loggers.
#[derive(Clone, Copy)]
pub(crate) struct Numbered<'l> {
    logger: &'l Logger,
    place: usize,
}

impl<'l> Keyed for Numbered<'l> {
    ghost key = { λ n. n.logger.now.name };

    fn key(&self) -> &[u8] {
        self.logger.name().as_bytes()
    }
}

/// Returns the loggers, each with its place.
fn with_places<'l>(alloc: Global, loggers: &'l [Logger]) -> Result<Vec<Numbered<'l>>, OutOfMemory>
    ensures loggers { IfOk result (λ all. map (λ n. n.logger.now) all.items ≡ loggers.now) }
    ensures places { IfOk result (λ all. All (λ n. slice_get loggers.now n.place
        ≡ Some n.logger.now) all.items) }
{
    let mut all = Vec::with_capacity(alloc, loggers.len())?;
    for place in 0..loggers.len() {
        all.push(Numbered {
            logger: &loggers[place],
            place,
        })?;
    }
    Ok(all)
}

/// Sorts loggers by their components.
fn sort(all: &mut Vec<Numbered<'_>>) -> Result<(), OutOfMemory>
    ensures same { IsPermutation all.old.items all.new.items }
    ensures sorted { OnOk result (IsSortedByKey (λ n. components n.logger.now.name) parts_cmp
        all.new.items) }
{
    all.sort_by(|a, b| compare(a.key(), b.key()))?;
    Ok(())
}

/// Returns the first logger of each name of a sorted list.
fn risen<'l>(alloc: Global, sorted: &[Numbered<'l>]) -> Result<Vec<Numbered<'l>>, OutOfMemory>
    ensures rising { IfOk result (λ kept. Rise (map (λ n. components n.logger.now.name)
        kept.items)) }
    ensures all { IfOk result (λ kept. Rise (map (λ n. components n.logger.now.name) sorted.now)
        → kept.items ≡ sorted.now) }
    ensures among { IfOk result (λ kept. All (λ n. Contains sorted.now n) kept.items) }
    ensures fewer { IfOk result (λ kept. length kept.items ≤ length sorted.now) }
{
    let mut kept = Vec::with_capacity(alloc, sorted.len())?;
    for one in sorted {
        if follows(&kept, one) {
            kept.push(*one)?;
        }
    }
    Ok(kept)
}

/// Returns whether a logger stands behind the last of these.
fn follows(kept: &[Numbered<'_>], one: &Numbered<'_>) -> bool
    ensures { result ≡ option_map_or (λ last. is_lt (parts_cmp (components last.logger.now.name)
        (components one.now.logger.now.name))) (slice_get kept.now (length kept.now - 1)) true }
{
    match kept.last() {
        None => true,
        Some(last) => compare(last.key(), one.key()) == Ordering::Less,
    }
}

/// Returns the first logger of each name, in the order of their components, each with its place.
fn in_order<'l>(alloc: Global, loggers: &'l [Logger]) -> Result<Vec<Numbered<'l>>, OutOfMemory>
    ensures rising { IfOk result (λ kept. Rise (map (λ n. components n.logger.now.name)
        kept.items)) }
    ensures places { IfOk result (λ kept. All (λ n. slice_get loggers.now n.place
        ≡ Some n.logger.now) kept.items) }
    ensures fewer { IfOk result (λ kept. length kept.items ≤ length loggers.now) }
    ensures same { IfOk result (λ kept. HaveDistinctNames loggers.now
        → IsPermutation loggers.now (map (λ n. n.logger.now) kept.items)) }
{
    let mut all = with_places(alloc, loggers)?;
    sort(&mut all)?;
    risen(alloc, &all)
}

/// Returns the place of the first appender of a name, or the number of appenders.
fn place_of_name<A: Named>(appenders: &[A], name: &str) -> usize
    ensures { result ≡ position_or_len (bytes_eq name.now) (map A.name appenders.now) }
{
    let mut i = 0;
    while i < appenders.len() {
        if name == appenders[i].name() {
            return i;
        }
        i += 1;
    }
    i
}

/// Returns the places of named appenders.
pub(crate) fn places_of<A: Named>(
    alloc: Global,
    appenders: &[A],
    wanted: &[String],
) -> Result<Vec<usize>, OutOfMemory>
    ensures { IfOk result (λ found. found.items
        ≡ places (map A.name appenders.now) (map (λ s. string_bytes s) wanted.now)) }
{
    let mut found = Vec::new(alloc);
    for name in wanted {
        found.push(place_of_name(appenders, name.as_str()))?;
    }
    Ok(found)
}

/// Returns the list of a logger, followed by that of the logger above if it is additive.
fn link<A: Named>(
    alloc: Global,
    appenders: &[A],
    logger: &Logger,
    list: &[usize],
) -> Result<Vec<usize>, OutOfMemory>
    ensures { IfOk result (λ made. made.items
        ≡ places (map A.name appenders.now) logger.now.appenders
        ++ (if logger.now.additive then list.now else [])) }
{
    let mut own = places_of(alloc, appenders, logger.appenders())?;
    if logger.additive() {
        own.extend_from_slice(list)?;
    }
    Ok(own)
}

/// Returns the list of the entry at a place, or the root's.
fn list_of<'l>(entries: &'l [Entry], place: Option<usize>, root: &'l [usize]) -> &'l [usize]
    requires { IfSome place (λ up. up < length entries.now) }
    ensures { result.now ≡ option_map_or
        (λ up. slice_index_or (map (λ e. e.route.places.items) entries.now) up []) place root.now }
{
    match place {
        Some(up) => entries[up].route.places.as_slice(),
        None => root,
    }
}

/// Returns the entries of loggers, each with its list: a list above stands before those that end in
/// it.
fn entries_of<A: Named>(
    alloc: Global,
    appenders: &[A],
    loggers: &[Numbered<'_>],
    above: &[Option<usize>],
    list: &[usize],
) -> Result<Vec<Entry>, OutOfMemory>
    requires rising { Rise (map (λ n. components n.logger.now.name) loggers.now) }
    requires above { AreAbove (map (λ n. n.logger.now.name) loggers.now) above.now }
    requires all { length above.now ≡ length loggers.now }
    ensures names { IfOk result (λ entries. map (λ e. string_bytes e.name) entries.items
        ≡ map (λ n. n.logger.now.name) loggers.now) }
    ensures places { IfOk result (λ entries. map (λ e. e.place) entries.items
        ≡ map (λ n. n.place) loggers.now) }
    ensures levels { IfOk result (λ entries. map (λ e. e.route.level) entries.items
        ≡ map (λ n. n.logger.now.level) loggers.now) }
    ensures lists { IfOk result (λ entries. map (λ e. e.route.places.items) entries.items
        ≡ map (λ n. walk (chained (map A.name appenders.now)
        (map (λ n. n.logger.now) loggers.now)) (name_at (map (λ n. n.logger.now.name) loggers.now))
        list.now (components n.logger.now.name)) loggers.now) }
{
    let mut entries = Vec::with_capacity(alloc, loggers.len())?;
    for one in loggers {
        let up = above[entries.len()];
        let places = link(alloc, appenders, one.logger, list_of(&entries, up, list))?;
        entries.push(Entry {
            name: String::from_str(alloc, one.logger.name())?,
            place: one.place,
            route: Route {
                level: one.logger.level(),
                places,
            },
        })?;
    }
    Ok(entries)
}

impl Routes {
    ghost use Rattle.std.specs.Prelude.{◌<◌, ◌≤◌, ◌+◌, ◌*◌, ◌^◌, ℕ};
    ghost use Rattle.log4rs_config.specs.RoutesSeen.{route_at, governor_at, routes_level_at, routes_places_at, routes_size, with_root, IsRouted};
    ghost use Rattle.log4rs_config.specs.Name.{path_of};
    ghost use Rattle.log4rs_config.specs.Settings.{settings_of};

    /// Creates the routes of a configuration's lists. Fails if an allocation fails.
    pub fn new<A: Named>(
        alloc: Global,
        appenders: &[A],
        root: &Root,
        loggers: &[Logger],
    ) -> Result<Routes, OutOfMemory>
        ensures { IfOk result (IsRouted (settings_of (map A.name appenders.now) root.now
            loggers.now)) }
    {
        let places = places_of(alloc, appenders, root.appenders())?;
        let kept = in_order(alloc, loggers)?;
        let above = above_of(alloc, &kept)?;
        let entries = entries_of(alloc, appenders, &kept, &above, &places)?;
        let digests = Digests::of(alloc, &entries, above)?;
        Ok(Routes {
            entries,
            digests,
            root: Route {
                level: root.level(),
                places,
            },
        })
    }

    /// Returns the level of the logger that governs a target, or the root's, and the places of its
    /// appenders in the order of delivery.
    pub fn route(&self, target: &str) -> (LevelFilter, &[usize])
        ensures level { result.0 ≡ routes_level_at self.now (path_of target.now) }
        ensures places { result.1.now ≡ routes_places_at self.now (path_of target.now) }
    {
        let route = self.route_of(target);
        (route.level, route.places.as_slice())
    }

    /// Sets the level of the root's route.
    pub(crate) fn set_root_level(&mut self, level: LevelFilter)
        ensures { self.new ≡ with_root self.old level }
    {
        self.root.level = level;
    }

    /// Returns the route of the logger that governs a target.
    fn route_of(&self, target: &str) -> &Route
        ensures { result.now ≡ route_at self.now (path_of target.now) }
    {
        if self.entries.is_empty() {
            return &self.root;
        }
        self.route_among(target)
    }

    /// Does the same by a search. It is apart from `route_of`, so that calls without loggers stay
    /// short.
    #[inline(never)]
    fn route_among(&self, target: &str) -> &Route
        ensures { result.now ≡ route_at self.now (path_of target.now) }
    {
        let found = nearest_uncounted(&self.entries, &self.digests, target.as_bytes());
        let Some(index) = found else {
            return &self.root;
        };
        match self.entries.get(index) {
            Some(entry) => &entry.route,
            None => &self.root,
        }
    }

    /// Returns the place in the list of loggers of the one that governs a target.
    pub(crate) fn governor<L: Ledger>(&self, target: &str, turns: &mut Turns<L>) -> Option<usize>
        ensures place { result ≡ governor_at self.now (path_of target.now) }
        ensures turns { (digits : ℕ) → routes_size self.now < 2 ^ digits
            → turns.new ≤ turns.old + length (components target.now) * digits }
    {
        let looked = Looked::<Entry, L>::new(&self.entries, &self.digests);
        let index = nearest(&looked, target.as_bytes(), turns)?;
        Some(self.entries.get(index)?.place)
    }
}
