//! The laws of orders, and of matches in drafts, each the contract of a function that does nothing.

ghost use Rattle.draft.specs.KeptOrders.{PutsKeepOrders, KeepingIsTransitive};
ghost use Rattle.draft_steps.specs.DraftWorklists.{WorklistsStay};
ghost use Rattle.draft_steps.specs.MatchLaws.{MatchesOfTheArena, MatchesOfTheUntouched};

use bindings::temporaries_stand_before_roots;

/// Where a new number is inserted before another, all old numbers keep their order, and a worklist stays one.
pub fn orders_are_kept()
    ensures put { PutsKeepOrders }
    ensures twice { KeepingIsTransitive }
    ensures queues { WorklistsStay }
{}

/// The matches at an instruction of a draft's arena are those at its position in the function.
pub fn matches_of_the_arena()
    ensures { MatchesOfTheArena }
{
    temporaries_stand_before_roots();
}

/// An instruction from which no chain of operands leads to a touched one has no match that it didn't have before.
pub fn matches_of_the_untouched()
    ensures { MatchesOfTheUntouched }
{}
