//! The law of matches, the contract of a function that does nothing.

ghost use Rattle.matcher.specs.Laws.{MatchesHaveOneBinding};

/// A rule matches at an instruction with one binding at most.
pub fn every_match_has_one_binding()
    ensures { MatchesHaveOneBinding }
{}
