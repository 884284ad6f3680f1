//! Entries at which a search looks, each look counted.

ghost use Rattle.std.specs.Prelude.{◌≡◌, ◌<◌, ◌≤◌, ◌+◌, ◌-◌, ◌^◌, length, map, slice_get, Some, IfNone, IfSome};

use crate::order::Digests;
use crate::search::Keyed;
use crate::turns::Turns;
use std::marker::PhantomData;
use std::sync::ledger::Ledger;

/// Entries and their digests. Only `at` shows an entry, and it counts one comparison in the ledger
/// of the search.
#[derive(Drop)]
pub(crate) struct Looked<'a, T, L: Ledger> {
    entries: &'a [T],
    digests: &'a Digests,
    counted: PhantomData<L>,
}

/// A front of the entries. It ends with one at which the search looked, or is empty.
#[derive(Clone, Copy)]
pub(crate) struct Front {
    end: usize,
}

impl Front {
    /// Creates the empty front.
    pub(crate) fn empty() -> Front
        ensures { result.end ≡ 0 }
    {
        Front { end: 0 }
    }

    /// Returns how many entries it has.
    pub(crate) fn end(self) -> usize
        ensures { result ≡ self.end }
    {
        self.end
    }
}

impl<'a, T: Keyed, L: Ledger> Looked<'a, T, L> {
    /// Takes sorted entries and their digests.
    pub(crate) fn new(entries: &'a [T], digests: &'a Digests) -> Looked<'a, T, L>
        ensures entries { result.entries.now ≡ entries.now }
        ensures digests { result.digests.now ≡ digests.now }
    {
        Looked {
            entries,
            digests,
            counted: PhantomData,
        }
    }

    /// Returns the number of digests.
    pub(crate) fn len(&self) -> usize
        ensures length { result ≡ length self.now.digests.now.values.items }
        ensures few { result < 2 ^ 61 }
    {
        let values: &[u64] = &self.digests.values;
        values.len()
    }

    /// Returns the longest text that all names begin with.
    pub(crate) fn common(&self) -> &'a [u8]
        ensures { result.now ≡ self.now.digests.now.common.items }
    {
        &self.digests.common
    }

    /// Returns, for each entry, the place of the one that governs its parent.
    pub(crate) fn above(&self) -> &'a [Option<usize>]
        ensures { result.now ≡ self.now.digests.now.above.items }
    {
        &self.digests.above
    }

    /// Returns the length of each name, in bytes.
    pub(crate) fn lengths(&self) -> &'a [usize]
        ensures { result.now ≡ self.now.digests.now.lengths.items }
    {
        &self.digests.lengths
    }

    /// Looks at the entry at a place, and counts that. Returns its digest, the entry, and the front
    /// that ends with it.
    #[inline(always)]
    pub(crate) fn at(&self, place: usize, turns: &mut Turns<L>) -> (u64, &'a T, Front)
        requires entry { place < length self.now.entries.now }
        requires digest { place < length self.now.digests.now.values.items }
        ensures digest { slice_get self.now.digests.now.values.items place ≡ Some result.0 }
        ensures entry { slice_get (map T.key self.now.entries.now) place
            ≡ Some (T.key result.1.now) }
        ensures front { result.2.end ≡ place + 1 }
        ensures turns { turns.new ≡ turns.old + 1 }
    {
        turns.tick();
        (
            self.digests.values[place],
            &self.entries[place],
            Front { end: place + 1 },
        )
    }

    /// Returns the last entry of a front, at which the search looked before. Counts nothing.
    #[inline(always)]
    pub(crate) fn last(&self, front: Front) -> Option<&'a T>
        requires { front.end ≤ length self.now.entries.now }
        ensures entry { IfSome result (λ entry. slice_get (map T.key self.now.entries.now)
            (front.end - 1) ≡ Some (T.key entry.now)) }
        ensures some { IfSome result (λ entry. 0 < front.end) }
        ensures none { IfNone result (front.end ≡ 0) }
    {
        if front.end == 0 {
            return None;
        }
        Some(&self.entries[front.end - 1])
    }
}
