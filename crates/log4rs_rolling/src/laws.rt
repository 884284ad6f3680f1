//! Laws of windows, rotations and segments.

ghost use Rattle.std.specs.Prelude.{◌++◌, ◌∷◌, ℕ, Bool, List, length, ◌≡◌, ◌≤◌, []};
ghost use Rattle.log4rs_rolling.specs.Change.{Change, Files, bytes_at, replay, written};
ghost use Rattle.log4rs_rolling.specs.Disk.{Disk};
ghost use Rattle.log4rs_rolling.specs.FileChanges.{OnlyWrites, OnlyAppends, OnlyOpens};
ghost use Rattle.log4rs_rolling.specs.Window.{Window, Good, KeepsTheEnd, AreDistinct, NoCopies};
ghost use Rattle.log4rs_rolling.specs.Window.{NotAmong, names, NoGaps, Shifted};
ghost use Rattle.log4rs_rolling.specs.HandingOver.{HandsOver, KeepsTheEndOver};
ghost use Rattle.log4rs_rolling.specs.Moves.{MovedAll, MovedPartly, each_to_the_older};
ghost use Rattle.log4rs_rolling.specs.Keeping.{Keeping};
ghost use Rattle.log4rs_rolling.specs.SinceOpening.{CopiesNothing, GoodSince, KeptSince};
ghost use Rattle.log4rs_rolling.specs.Places.{OnlyOf};
ghost use Rattle.log4rs_rolling.specs.Segments.{Segments, Shows, ShowsAfter, Grows, add_all, begun};
ghost use Rattle.log4rs_rolling.specs.Segments.{texts_of, files_behind};
ghost use Rattle.log4rs_rolling.specs.ArchiveEnds.{older_of, ends, IsAt, AreAt, EndsAt, longer};

use crate::store::Open;

/// After good changes, what is kept is a suffix of what was kept before and all that was written
/// since.
pub fn keeps_the_end()
    ensures { (window : Window) (files : Files) (changes : List Change) → Good window files changes
        → KeepsTheEnd window files changes }
{}

/// Two good lists of changes join to a good one, and each prefix of a good list is good.
pub fn good_lists_join()
    ensures joined { (window : Window) (files : Files) (first others : List Change)
        → Good window files first → Good window (replay files first) others
        → Good window files (first ++ others) }
    ensures front { (window : Window) (files : Files) (first others : List Change)
        → Good window files (first ++ others) → Good window files first }
{}

/// If one appender hands the files of a window over to another, what is kept is a suffix of what
/// was kept before and all that both wrote. Appends of the retired one are good at any time.
pub fn handing_over_keeps_the_end()
    ensures kept { (window : Window) (opening end start now : Disk)
        → HandsOver window opening end start now → KeepsTheEndOver window opening end start now }
    ensures late { (window : Window) (files : Files) (changes : List Change)
        → AreDistinct (names window) → OnlyAppends window.active Open.Append changes
        → Good window files changes }
{}

/// If the settings only rename, or are built in and nothing was refused, each change since an
/// opening keeps the window or drops its oldest archive.
pub fn renames_are_good()
    ensures { (settings keeping : Keeping) (active : List ℕ) (append : Bool) (opening now : Disk)
        → GoodSince settings keeping active append opening now
        → CopiesNothing settings opening now → KeptSince settings active append opening now }
{}

/// Changes of files under some names leave every other file unchanged.
pub fn others_stay()
    ensures { (names : List (List ℕ)) (files : Files) (changes : List Change) (path : List ℕ)
        → OnlyOf names changes → NotAmong path names → replay files changes path ≡ files path }
{}

/// The moves of a rotation without gaps give each name the file of the next newer name.
pub fn rotations_shift()
    ensures { (older newer : List ℕ) (others : List (List ℕ)) (files : Files)
        (changes : List Change) → AreDistinct (older ∷ newer ∷ others)
        → NoGaps files (older ∷ newer ∷ others)
        → MovedAll files (each_to_the_older (older ∷ newer ∷ others)) changes
        → Shifted files (replay files changes) (older ∷ newer ∷ others) }
{}

/// If the archives have no gaps, they are the closed segments, and the active file is the open one.
/// Appends that each add a text to the segments add all texts, in order, and after each append the
/// active file has at most as many bytes as the limit.
pub fn segments_begin()
    ensures begins { (archives : List (List ℕ)) (active : List ℕ) (files : Files)
        → NoGaps files archives → Shows (begun archives active files) archives active files }
    ensures grows { (limit : ℕ) (archives : List (List ℕ)) (active : List ℕ) (files : Files)
        (steps : List (List ℕ × Files)) (segments : Segments)
        → Grows limit archives active files steps → Shows segments archives active files
        → Shows (add_all limit segments (texts_of steps)) archives active
        (files_behind files steps) }
    ensures within { (limit : ℕ) (segments : Segments) (text : List ℕ) (archives : List (List ℕ))
        (active : List ℕ) (files : Files) → ShowsAfter limit segments text archives active files
        → length (bytes_at files active) ≤ limit }
{}

/// A rotation, or a prefix of one, leaves each end of an archive in its place, except that the
/// oldest may go and one is added at the end of the stream. Writes and openings of the active file
/// leave all.
pub fn rotations_keep_ends()
    ensures rotates { (window : Window) (oldest : List ℕ) (rest : List (List ℕ)) (files : Files)
        (changes : List Change) (places : List ℕ) (at : ℕ) → older_of window ≡ oldest ∷ rest
        → AreDistinct (older_of window ++ window.active ∷ []) → NoCopies changes
        → MovedPartly files (each_to_the_older (oldest ∷ (rest ++ window.active ∷ []))) changes
        → AreAt places at (ends window files) → IsAt places at 0
        → EndsAt places window files at changes }
    ensures writes { (window : Window) (files : Files) (changes : List Change) (places : List ℕ)
        (at : ℕ) → AreDistinct (older_of window ++ window.active ∷ [])
        → OnlyWrites window.active changes
        → AreAt places at (ends window files) → EndsAt places window files at changes }
    ensures opens { (window : Window) (files : Files) (changes : List Change) (places : List ℕ)
        (at : ℕ) → AreDistinct (older_of window ++ window.active ∷ [])
        → OnlyOpens window.active Open.Append changes
        → AreAt places at (ends window files) → EndsAt places window files at changes }
    ensures joined { (places : List ℕ) (window : Window) (files : Files) (at : ℕ)
        (first others : List Change) → EndsAt places window files at first
        → EndsAt places window (replay files first) (longer (written window.active first) at) others
        → EndsAt places window files at (first ++ others) }
{}
