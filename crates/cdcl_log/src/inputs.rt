//! How many different inputs a set has.

ghost use Rattle.std.specs.Prelude.{◌+◌, ◌<◌, ◌↔◌, IfOk, IsTrue};
ghost use Rattle.depth_first.specs.Found.{distinct_count};

use clauses::Cnf;
use std::alloc::{AllocError, Global};

/// Sets with at most this many different inputs are searched depth first.
const FEW_INPUTS: usize = 12;

/// Whether the set has more different inputs than that; one that is named several times is counted
/// once.
pub(crate) fn has_many_inputs(alloc: Global, cnf: &Cnf) -> Result<bool, AllocError>
    ensures { IfOk result (λ many. IsTrue many ↔ (12 < distinct_count cnf.now.inputs)) }
{
    let inputs = cnf.inputs.as_slice();
    let mut named = vec![in alloc; false; cnf.count as usize + 1]?;
    let mut count = 0;
    let mut place = inputs.len();
    while place > 0 {
        place -= 1;
        let variable = inputs[place] as usize;
        if !named[variable] {
            named[variable] = true;
            count += 1;
        }
    }
    Ok(count > FEW_INPUTS)
}
