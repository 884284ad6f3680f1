//! Consequences of the definitions, stated as contracts.

ghost use Rattle.log4rs_threads.specs.Laws.{AreApart, EachIsPut, SeesAll, UsesOpening};

/// If a caller made as many steps after an effective load as the load has deliveries, each of these
/// was appended, by the loaded shape, and no two at one position.
pub fn each_delivery_is_put()
    ensures each { EachIsPut }
    ensures apart { AreApart }
{}

/// A session that was told of all swaps, and has since seen what its publisher swapped, saw exactly
/// these swaps. If nothing was swapped, it uses the opening configuration.
pub fn what_is_seen_is_what_was_swapped()
    ensures all { SeesAll }
    ensures none { UsesOpening }
{}
