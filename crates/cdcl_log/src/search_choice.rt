//! Which search a set gets, by how many inputs it has.

ghost use Rattle.std.specs.Prelude.{◌≤◌, IfOk};
ghost use Rattle.depth_first.specs.Found.{IsFound, most_conflicts};

use crate::inputs::has_many_inputs;
use clauses::Cnf;
use depth_first::Found;
use std::alloc::{AllocError, Global};

/// Searches for a model of all clauses, and gives up after `limit` learned clauses. The empty clause that ends a
/// refutation isn't counted. A limit is at most 1,000,000, so that clause numbers fit a `u32`.
///
/// With at most twelve different inputs the search is depth first. It goes on past the limit as long as all its
/// decisions are on inputs, so that it gives up on no set in which the inputs determine the rest by unit propagation.
/// With more inputs it is conflict-driven clause learning.
///
/// The only error is want of memory.
pub fn search(alloc: Global, cnf: &Cnf, limit: u32) -> Result<Found, AllocError>
    requires { limit ≤ most_conflicts }
    ensures { IfOk result (IsFound cnf.now limit) }
{
    if has_many_inputs(alloc, cnf)? {
        first_uip::search(alloc, cnf, limit)
    } else {
        depth_first::search(alloc, cnf, limit)
    }
}
