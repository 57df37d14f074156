//! The law of the order of matches, as the contract of a function that does nothing.

ghost use Rattle.rule_matches.specs.Laws.{MatchesBeforeStandFirst};

/// Every list of all matches begins with those that come before one of them, followed by that one: so a search that
/// ends at this match has gone through what comes before it in the list.
pub fn matches_before_stand_first()
    ensures { MatchesBeforeStandFirst }
{}
