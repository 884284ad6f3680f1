//! The order of names, and digests, which keep this order.

ghost use Rattle.std.specs.Prelude.{◌≡◌, ◌≢◌, ℕ, ◌<◌, ◌≤◌, ◌+◌, ◌-◌, ◌⊎◌, IsTrue, drop, take, length, slice_index, All, IfOk, map};
ghost use Rattle.log4rs_config.specs.Name.{colon, components};
ghost use Rattle.log4rs_config.specs.Order.{parts_cmp, Rise};
ghost use Rattle.log4rs_config.specs.Standing.{tokens, next, last_start, AreShared, Stands, order_of};
ghost use Rattle.log4rs_base.specs.Text.{Text};
ghost use Rattle.log4rs_config.specs.Digests.{digest_of, BeginsWith, IsDigested};

use crate::component::is_separator;
use crate::search::Keyed;
use log4rs_base::OutOfMemory;
use std::alloc::Global;
use std::cmp::Ordering;

/// The position of a name relative to a target.
#[derive(Clone, Copy)]
pub(crate) enum Standing {
    /// It has the same components.
    Same,
    /// Its components begin the target's, which has more.
    Begins,
    /// It stands before the target, and does not begin it.
    Before,
    Behind,
}

impl Standing {
    /// Returns the order of the name and the target by their components.
    pub(crate) fn order(self) -> Ordering
        ensures { result ≡ order_of self }
    {
        match self {
            Standing::Same => Ordering::Equal,
            Standing::Begins | Standing::Before => Ordering::Less,
            Standing::Behind => Ordering::Greater,
        }
    }
}

/// Returns the token at a place: 0 at the end, 1 at `::`, else the byte plus 2.
pub(crate) fn token(name: &[u8], at: usize) -> u16
    requires { at ≤ length name.now }
    ensures { result ≡ next (tokens (drop at name.now)) }
{
    if at >= name.len() {
        return 0;
    }
    if name[at] != b':' {
        return u16::from(name[at]) + 2;
    }
    if is_separator(name, at) {
        return 1;
    }
    u16::from(b':') + 2
}

/// Returns how a name stands to a target, by the tokens at which they differ or end.
fn decide(name: u16, target: u16) -> Standing
    requires { name ≡ target → name ≡ 0 }
    ensures { Stands result name target }
{
    if name > target {
        return Standing::Behind;
    }
    if name == target {
        return Standing::Same;
    }
    if target == 1 {
        return Standing::Begins;
    }
    Standing::Before
}

/// Returns whether the eight bytes at a place are the same in both, and stand before an end.
fn same_word(name: &[u8], target: &[u8], at: usize, end: usize) -> bool
    requires { (at ≤ end) × (end ≤ length name.now) × (end ≤ length target.now) }
    ensures within { IsTrue result → at + 8 ≤ end }
    ensures same { IsTrue result → take 8 (drop at name.now) ≡ take 8 (drop at target.now) }
{
    match (
        name[at..end].first_chunk::<8>(),
        target[at..end].first_chunk::<8>(),
    ) {
        (Some(left), Some(right)) => left == right,
        _ => false,
    }
}

/// Returns the end of the bytes that are the same in both, from a place on.
fn same_to(name: &[u8], target: &[u8], from: usize) -> usize
    requires { (from ≤ length name.now) × (from ≤ length target.now) }
    ensures further { from ≤ result }
    ensures within { (result ≤ length name.now) × (result ≤ length target.now) }
    ensures same { (i : ℕ) → from ≤ i → i < result
        → slice_index name.now i ≡ slice_index target.now i }
{
    let end = name.len().min(target.len());
    let mut at = from;
    while same_word(name, target, at, end) {
        at += 8;
    }
    // Fewer than eight bytes are left, which are compared with those in front of them.
    if 8 <= end && end - 8 <= at && same_word(name, target, end - 8, end) {
        return end;
    }
    while at < end && name[at] == target[at] {
        at += 1;
    }
    at
}

/// Returns the start of the run of colons before a place, and not before `from`.
fn colons(name: &[u8], from: usize, end: usize) -> usize
    requires { (from ≤ end) × (end ≤ length name.now) }
    ensures within { (from ≤ result) × (result ≤ end) }
    ensures colons { (i : ℕ) → result ≤ i → i < end → slice_index name.now i ≡ colon }
    ensures first { (result ≡ from) ⊎ (slice_index name.now (result - 1) ≢ colon) }
{
    let mut begin = end;
    while from < begin && name[begin - 1] == b':' {
        begin -= 1;
    }
    begin
}

/// Returns the end of the tokens that are the same in both, or a place before it.
pub(crate) fn skip(name: &[u8], target: &[u8], from: usize) -> usize
    requires { AreShared name.now target.now from }
    ensures shared { AreShared name.now target.now result }
    ensures further { from ≤ result }
{
    let end = same_to(name, target, from);
    if from < end && name[end - 1] != b':' {
        return end;
    }
    let begin = colons(name, from, end);
    begin + (end - begin) / 2 * 2
}

/// Compares a name with a target by their components, from the bytes that they are known to share.
/// Returns how the name stands, and how many bytes they share. Allocates nothing.
pub(crate) fn compare_from(name: &[u8], target: &[u8], from: usize) -> (Standing, usize)
    requires { AreShared name.now target.now from }
    ensures shared { AreShared name.now target.now result.1 }
    ensures standing { Stands result.0 (next (tokens (drop result.1 name.now)))
        (next (tokens (drop result.1 target.now))) }
    ensures order { parts_cmp (components name.now) (components target.now) ≡ order_of result.0 }
{
    let mut bytes = from;
    loop {
        bytes = skip(name, target, bytes);
        let left = token(name, bytes);
        let right = token(target, bytes);
        if left != right || left == 0 {
            return (decide(left, right), bytes);
        }
        if left == 1 {
            bytes += 2;
        } else {
            bytes += 1;
        }
    }
}

/// Returns the start of the last component of a name.
pub(crate) fn start_of(name: &[u8]) -> usize
    ensures { result ≡ last_start 0 0 (tokens name.now) }
{
    let mut end = name.len();
    while 0 < end {
        if name[end - 1] != b':' {
            end -= 1;
            continue;
        }
        let begin = colons(name, 0, end);
        if end - begin >= 2 {
            return begin + (end - begin) / 2 * 2;
        }
        end -= 1;
    }
    0
}

/// Compares two names by their components. Allocates nothing.
pub(crate) fn compare(name: &[u8], other: &[u8]) -> Ordering
    ensures { result ≡ parts_cmp (components name.now) (components other.now) }
{
    compare_from(name, other, 0).0.order()
}

/// What a search needs beside names: their longest common beginning, the digest of the rest of
/// each, the length of each in bytes, and the place of the name that governs the parent of each.
#[derive(Drop)]
pub(crate) struct Digests {
    pub(crate) common: Vec<u8>,
    pub(crate) values: Vec<u64>,
    pub(crate) lengths: Vec<usize>,
    pub(crate) above: Vec<Option<usize>>,
}

/// The number of tokens (bytes, or `::`) in a digest.
const TOKENS: usize = 6;

/// Returns the digest of a name: its first six tokens as one number.
#[inline(always)]
pub(crate) fn digest(name: &[u8]) -> u64
    ensures value { result ≡ digest_of 6 (tokens name.now) }
{
    let mut value = 0;
    let mut at = 0;
    for _ in 0..TOKENS {
        let next = token(name, at);
        value = value * 512 + u64::from(next);
        if next == 1 {
            at += 2;
        } else if next > 1 {
            at += 1;
        }
    }
    value
}

/// Returns the digest of a name behind so many bytes.
#[inline(always)]
pub(crate) fn digest_behind(name: &[u8], bytes: usize) -> u64
    requires { bytes ≤ length name.now }
    ensures value { result ≡ digest_of 6 (tokens (drop bytes name.now)) }
    ensures bytes { All (λ b. b < 256) name.now }
{
    digest(&name[bytes..])
}

/// Returns the longest text that the names all begin with.
fn common_of<T: Keyed>(entries: &[T]) -> &[u8]
    requires { Rise (map (λ e. components (T.key e)) entries.now) }
    ensures begins { All (BeginsWith result.now) (map T.key entries.now) }
    ensures longest { (text : Text) → 0 < length entries.now
        → All (BeginsWith text) (map T.key entries.now) → length text ≤ length result.now }
{
    if entries.is_empty() {
        return &[];
    }
    let last = entries[entries.len() - 1].key();
    let (_, shared) = compare_from(entries[0].key(), last, 0);
    &last[..shared]
}

impl Digests {
    /// Returns the digests of sorted names, with these places.
    pub(crate) fn of<T: Keyed>(
        alloc: Global,
        entries: &[T],
        above: Vec<Option<usize>>,
    ) -> Result<Digests, OutOfMemory>
        requires { Rise (map (λ e. components (T.key e)) entries.now) }
        ensures digested { IfOk result (λ digests. IsDigested digests (map T.key entries.now)) }
        ensures lengths { IfOk result (λ digests. digests.lengths.items
            ≡ map (λ name. length name) (map T.key entries.now)) }
        ensures above { IfOk result (λ digests. digests.above ≡ above) }
    {
        let start = common_of(entries);
        let mut values = Vec::with_capacity(alloc, entries.len())?;
        let mut lengths = Vec::with_capacity(alloc, entries.len())?;
        for entry in entries {
            let name = entry.key();
            values.push(digest_behind(name, start.len()))?;
            lengths.push(name.len())?;
        }
        Ok(Digests {
            common: start.to_vec(alloc)?,
            values,
            lengths,
            above,
        })
    }
}
