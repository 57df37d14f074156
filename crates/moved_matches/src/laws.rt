//! The law of matches that stay, the contract of a function that does nothing.

ghost use Rattle.moved_matches.specs.Laws.{MatchesStayInAnyOrder, MatchesStayInOrder};

/// Where what a match depends on is in another function too, the rule matches there, with the moved binding.
pub fn matches_stay_where_instructions_move()
    ensures in_order { MatchesStayInOrder }
    ensures any_order { MatchesStayInAnyOrder }
{}
