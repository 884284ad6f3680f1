//! Binary search, and the entry that governs the parents of each entry.

ghost use Rattle.std.specs.Prelude.{◌≡◌, ℕ, ◌<◌, ◌≤◌, ◌+◌, ◌-◌, ◌*◌, ◌/◌, ◌^◌, length, map, drop, min, slice_get, None, Some, IfOk, IfErr};
ghost use Rattle.log4rs_base.specs.Text.{Text};
ghost use Rattle.log4rs_config.specs.Name.{components};
ghost use Rattle.log4rs_config.specs.Order.{parts_cmp, Rise};
ghost use Rattle.log4rs_config.specs.Standing.{tokens, next, AreShared, IsKnown, Stands, order_of};
ghost use Rattle.log4rs_config.specs.declared.order.Standing.TheVariants.{Before};
ghost use Rattle.log4rs_config.specs.Digests.{BeginsWith, IsDigested, digest_behind};
ghost use Rattle.log4rs_config.specs.Above.{AreAbove, IsBelow, parents};
ghost use Rattle.log4rs_config.specs.Left.{IsLeft};
ghost use Rattle.log4rs_config.specs.Seeks.{CanHalve, IsIndexed, Seeks, StandsBehind, keys_of};
ghost use Rattle.log4rs_config.specs.Walk.{longest, name_at};

use crate::looked::{Front, Looked};
use crate::order::{Digests, Standing, compare_from, digest_behind, start_of};
use crate::turns::Turns;
use log4rs_base::OutOfMemory;
use std::alloc::Global;
use std::cmp::Ordering;
use std::marker::Brand;
use std::sync::ledger::{Blank, Ledger};

/// Has a name.
pub(crate) trait Keyed {
    ghost key: { Self → Text };

    fn key(&self) -> &[u8]
        ensures { result.now ≡ key self.now };
}

/// Compares a name with a target, by their digests if these differ. If not, compares them from what
/// the names on both sides share with the target, and returns the standing too. The last part of
/// the result is how many bytes they share.
fn order_at(
    name: &[u8],
    digest: u64,
    common: &[u8],
    target: &[u8],
    wanted: u64,
    left: usize,
    right: usize,
) -> (Ordering, Option<Standing>, usize)
    requires name { BeginsWith common.now name.now }
    requires digest { digest ≡ digest_behind (length common.now) name.now }
    requires begins { BeginsWith common.now target.now }
    requires wanted { wanted ≡ digest_behind (length common.now) target.now }
    requires shared { AreShared name.now target.now (min left right) }
    ensures order { parts_cmp (components name.now) (components target.now) ≡ result.0 }
    ensures known { IsKnown name.now target.now result.1 result.2 }
{
    if digest < wanted {
        return (Ordering::Less, None, common.len());
    }
    if wanted < digest {
        return (Ordering::Greater, None, common.len());
    }
    let (standing, shared) = compare_from(name, target, left.min(right));
    (standing.order(), Some(standing), shared)
}

/// Returns how a name stands to a target, from what is known.
fn settle(name: &[u8], target: &[u8], told: Option<Standing>, from: usize) -> (Standing, usize)
    requires { IsKnown name.now target.now told from }
    ensures shared { AreShared name.now target.now result.1 }
    ensures standing { Stands result.0 (next (tokens (drop result.1 name.now)))
        (next (tokens (drop result.1 target.now))) }
    ensures order { parts_cmp (components name.now) (components target.now)
        ≡ order_of result.0 }
{
    match told {
        Some(standing) => (standing, from),
        None => compare_from(name, target, from),
    }
}

/// The part of the entries in which a target's place lies: behind a front, and in front of `high`.
#[derive(Clone, Copy)]
struct Span {
    front: Front,
    high: usize,
    /// How many bytes the target shares with the last name of the front, and with that at `high`.
    left: usize,
    right: usize,
    /// How the last name of the front stands to the target, if they were compared.
    told: Option<Standing>,
}

/// Returns the part of the entries that is left of a search which compares digests alone, and the
/// front whose last name is to be compared first: the part is empty, and that is the front before
/// it, or the wanted digest stands in its middle, and that is the last of the front.
#[inline(always)]
fn narrow<T: Keyed, L: Ledger>(
    looked: &Looked<'_, T, L>,
    wanted: u64,
    turns: &mut Turns<L>,
) -> (Front, usize, Front)
    requires digested { IsDigested looked.now.digests.now (map T.key looked.now.entries.now) }
    ensures within { (result.0.end ≤ result.1) × (result.1 ≤ length looked.now.entries.now) }
    ensures below { (value : ℕ) → 0 < result.0.end
        → slice_get looked.now.digests.now.values.items (result.0.end - 1) ≡ Some value
        → value < wanted }
    ensures above { (value : ℕ)
        → slice_get looked.now.digests.now.values.items result.1 ≡ Some value → wanted < value }
    ensures middle { result.0.end < result.1 → (result.2.end ≡ (result.0.end + result.1) / 2 + 1)
        × (slice_get looked.now.digests.now.values.items (result.2.end - 1) ≡ Some wanted) }
    ensures front { result.1 ≤ result.0.end → result.2.end ≡ result.0.end }
    ensures turns { (digits : ℕ) → length looked.now.entries.now < 2 ^ digits
        → CanHalve ((result.1 - result.0.end) / 2) turns.new (turns.old + digits) }
{
    let mut front = Front::empty();
    let mut high = looked.len();
    while front.end() < high {
        let low = front.end();
        let place = (low + high) / 2;
        let (value, _, seen) = looked.at(place, turns);
        if value == wanted {
            return (front, high, seen);
        }
        if value < wanted {
            front = seen;
        } else {
            high = place;
        }
    }
    (front, high, front)
}

/// Searches by digests alone, then compares one name from its beginning, which tells whether the
/// target begins as all names do. Returns the part of the entries that is left. If the place of the
/// entry that governs the target is known by then, fails with it.
#[inline(always)]
fn first_span<T: Keyed, L: Ledger>(
    looked: &Looked<'_, T, L>,
    target: &[u8],
    wanted: u64,
    turns: &mut Turns<L>,
) -> Result<Span, Option<usize>>
    requires indexed { IsIndexed looked.now.digests.now (map T.key looked.now.entries.now) }
    requires wanted { wanted
        ≡ digest_behind (length looked.now.digests.now.common.items) target.now }
    ensures left { IfOk result (λ span. BeginsWith looked.now.digests.now.common.items target.now
        × Seeks (map T.key looked.now.entries.now) target.now
        (length looked.now.digests.now.common.items)
        span.front.end span.high span.left span.right span.told) }
    ensures known { IfErr result (λ place. place
        ≡ longest (name_at (map T.key looked.now.entries.now)) None (components target.now)) }
    ensures turns { (digits : ℕ) → length looked.now.entries.now < 2 ^ digits
        → (turns.new ≤ turns.old + digits)
        × IfOk result (λ span. CanHalve (span.high - span.front.end) turns.new
        (turns.old + digits)) }
{
    let common = looked.common().len();
    let (front, high, seen) = narrow(looked, wanted, turns);
    let Some(entry) = looked.last(seen) else {
        return Err(None);
    };
    let (standing, shared) = compare_from(entry.key(), target, 0);
    if shared < common {
        return Err(None);
    }
    match standing.order() {
        Ordering::Equal => Err(Some(seen.end() - 1)),
        Ordering::Less => Ok(Span {
            front: seen,
            high,
            left: shared,
            right: common,
            told: Some(standing),
        }),
        Ordering::Greater => Ok(Span {
            front,
            high: seen.end() - 1,
            left: common,
            right: shared,
            told: None,
        }),
    }
}

/// Goes on with a search in a part of the entries. Returns and fails as `seek` does.
#[inline(always)]
fn seek_on<T: Keyed, L: Ledger>(
    looked: &Looked<'_, T, L>,
    target: &[u8],
    wanted: u64,
    span: Span,
    turns: &mut Turns<L>,
) -> Result<Option<usize>, usize>
    requires indexed { IsIndexed looked.now.digests.now (map T.key looked.now.entries.now) }
    requires begins { BeginsWith looked.now.digests.now.common.items target.now }
    requires wanted { wanted
        ≡ digest_behind (length looked.now.digests.now.common.items) target.now }
    requires span { Seeks (map T.key looked.now.entries.now) target.now
        (length looked.now.digests.now.common.items)
        span.front.end span.high span.left span.right span.told }
    ensures found { IfOk result (λ place. place
        ≡ longest (name_at (map T.key looked.now.entries.now)) None (components target.now)) }
    ensures other { IfErr result (λ start. IsLeft (map T.key looked.now.entries.now) target.now
        start) }
    ensures turns { (digits : ℕ) → span.high - span.front.end < 2 ^ digits
        → turns.new ≤ turns.old + digits }
{
    let common = looked.common();
    let mut front = span.front;
    let mut high = span.high;
    let mut left = span.left;
    let mut right = span.right;
    let mut told = span.told;
    while front.end() < high {
        let middle = (front.end() + high) / 2;
        let (digest, entry, seen) = looked.at(middle, turns);
        let name = entry.key();
        let (order, standing, shared) = order_at(name, digest, common, target, wanted, left, right);
        match order {
            Ordering::Equal => return Ok(Some(middle)),
            Ordering::Less => {
                front = seen;
                left = shared;
                told = standing;
            }
            Ordering::Greater => {
                high = middle;
                right = shared;
            }
        }
    }
    let Some(entry) = looked.last(front) else {
        return Ok(None);
    };
    let (standing, shared) = settle(entry.key(), target, told, left);
    let place = front.end() - 1;
    match standing {
        Standing::Same | Standing::Begins => return Ok(Some(place)),
        Standing::Before | Standing::Behind => {}
    }
    climb(looked, place, target, shared)
}

/// Returns the place of the entry that governs a target, if that is the one before the target's
/// place or one a few steps above it. If not, fails with a `start`: the search goes on with the
/// first `start - 2` bytes of the target.
#[inline(always)]
fn seek<T: Keyed, L: Ledger>(
    looked: &Looked<'_, T, L>,
    target: &[u8],
    turns: &mut Turns<L>,
) -> Result<Option<usize>, usize>
    requires indexed { IsIndexed looked.now.digests.now (map T.key looked.now.entries.now) }
    ensures found { IfOk result (λ place. place
        ≡ longest (name_at (map T.key looked.now.entries.now)) None (components target.now)) }
    ensures other { IfErr result (λ start. IsLeft (map T.key looked.now.entries.now) target.now
        start) }
    ensures turns { (digits : ℕ) → length looked.now.entries.now < 2 ^ digits
        → turns.new ≤ turns.old + digits }
{
    let wanted = digest_behind(target, looked.common().len().min(target.len()));
    match first_span(looked, target, wanted, turns) {
        Ok(span) => seek_on(looked, target, wanted, span, turns),
        Err(known) => Ok(known),
    }
}

/// Returns the place of the entry that governs a target: of all whose components begin the
/// target's, the one with the most. Looks, for each component of the target, at no more entries
/// than their number has binary digits.
#[inline(always)]
pub(crate) fn nearest<T: Keyed, L: Ledger>(
    looked: &Looked<'_, T, L>,
    target: &[u8],
    turns: &mut Turns<L>,
) -> Option<usize>
    requires indexed { IsIndexed looked.now.digests.now (map T.key looked.now.entries.now) }
    ensures place { result ≡ longest (name_at (map T.key looked.now.entries.now)) None
        (components target.now) }
    ensures turns { (digits : ℕ) → length looked.now.entries.now < 2 ^ digits
        → turns.new ≤ turns.old + length (components target.now) * digits }
{
    let mut end = target.len();
    loop {
        match seek(looked, &target[..end], turns) {
            Ok(place) => return place,
            Err(start) => end = start - 2,
        }
    }
}

/// Finds as `nearest` does, and counts nothing.
#[inline(always)]
pub(crate) fn nearest_uncounted<T: Keyed>(
    entries: &[T],
    digests: &Digests,
    target: &[u8],
) -> Option<usize>
    requires indexed { IsIndexed digests.now (map T.key entries.now) }
    ensures { result ≡ longest (name_at (map T.key entries.now)) None (components target.now) }
{
    nearest_from::<T, Brand>(entries, digests, target, Blank::new(1))
}

#[inline(always)]
fn nearest_from<T: Keyed, L: Ledger>(
    entries: &[T],
    digests: &Digests,
    target: &[u8],
    blank: Blank,
) -> Option<usize>
    requires indexed { IsIndexed digests.now (map T.key entries.now) }
    requires name { blank.name ≡ L.name }
    requires parts { blank.parts ≡ L.parts }
    requires some { 0 < blank.parts }
    ensures { result ≡ longest (name_at (map T.key entries.now)) None (components target.now) }
{
    let looked = Looked::<T, L>::new(entries, digests);
    nearest(&looked, target, &mut Turns::<L>::new(blank))
}

/// The number of steps upward before a target is searched for again.
const STEPS: usize = 8;

/// Returns the place of the entry that governs a prefix of the name at a place, found from there
/// upward. Compares no names.
fn climb_on<T: Keyed>(
    entries: &[T],
    above: &[Option<usize>],
    place: usize,
    front: &[u8],
) -> Option<usize>
    requires place { place < length above.now }
    requires fewer { length above.now ≤ length entries.now }
    requires rising { Rise (map (λ e. components (T.key e)) entries.now) }
    requires above { AreAbove (map T.key entries.now) above.now }
    requires below { (name : Text) → slice_get (map T.key entries.now) place ≡ Some name
        → IsBelow name front.now }
    ensures { result ≡ longest (name_at (map T.key entries.now)) None (components front.now) }
{
    let mut at = place;
    loop {
        let link = above[at];
        let Some(up) = link else {
            return None;
        };
        if entries[up].key().len() <= front.len() {
            return Some(up);
        }
        at = up;
    }
}

/// Returns the place of the entry that governs the parent of the first name with no link yet.
fn next_above<T: Keyed>(entries: &[T], above: &[Option<usize>]) -> Option<usize>
    requires fewer { length above.now < length entries.now }
    requires rising { Rise (map (λ e. components (T.key e)) entries.now) }
    requires above { AreAbove (map T.key entries.now) above.now }
    ensures { (name : Text) → slice_get (map T.key entries.now) (length above.now) ≡ Some name
        → result ≡ longest (name_at (map T.key entries.now)) None (parents (components name)) }
{
    let place = above.len();
    if place == 0 {
        return None;
    }
    let name = entries[place].key();
    let (standing, shared) = compare_from(entries[place - 1].key(), name, 0);
    match standing {
        Standing::Same | Standing::Begins => return Some(place - 1),
        Standing::Before | Standing::Behind => {}
    }
    let start = start_of(&name[..shared]);
    if start < 2 {
        return None;
    }
    climb_on(entries, above, place - 1, &name[..start - 2])
}

/// Returns, for each entry, the place of the one that governs its parent. Compares each name with
/// the one before it.
pub(crate) fn above_of<T: Keyed>(
    alloc: Global,
    entries: &[T],
) -> Result<Vec<Option<usize>>, OutOfMemory>
    requires { Rise (map (λ e. components (T.key e)) entries.now) }
    ensures above { IfOk result (λ above. AreAbove (map T.key entries.now) above.items) }
    ensures all { IfOk result (λ above. length above.items ≡ length entries.now) }
{
    let mut above = Vec::with_capacity(alloc, entries.len())?;
    while above.len() < entries.len() {
        let up = next_above(entries, &above);
        above.push(up)?;
    }
    Ok(above)
}

/// Returns the place of the entry that governs a target, found from the name in front of the
/// target's place upward by a few steps, with what that name and the target share. Looks at no
/// entry. Fails as `seek` does.
#[inline(always)]
fn climb<T: Keyed, L: Ledger>(
    looked: &Looked<'_, T, L>,
    place: usize,
    target: &[u8],
    shared: usize,
) -> Result<Option<usize>, usize>
    requires place { place < length looked.now.entries.now }
    requires indexed { IsIndexed looked.now.digests.now (map T.key looked.now.entries.now) }
    requires behind { StandsBehind (map T.key looked.now.entries.now) target.now place }
    requires before { (name : Text) → slice_get (map T.key looked.now.entries.now) place
        ≡ Some name → AreShared name target.now shared
        × Stands Before (next (tokens (drop shared name))) (next (tokens (drop shared target.now))) }
    ensures found { IfOk result (λ found. found
        ≡ longest (name_at (map T.key looked.now.entries.now)) None (components target.now)) }
    ensures other { IfErr result (λ start. IsLeft (map T.key looked.now.entries.now) target.now
        start) }
{
    let above = looked.above();
    let lengths = looked.lengths();
    let mut at = place;
    for _ in 0..STEPS {
        let Some(link) = above.get(at) else {
            break;
        };
        let Some(up) = *link else {
            return Ok(None);
        };
        if lengths[up] < shared {
            return Ok(Some(up));
        }
        at = up;
    }
    let start = start_of(&target[..shared]);
    if start < 2 {
        return Ok(None);
    }
    Err(start)
}
