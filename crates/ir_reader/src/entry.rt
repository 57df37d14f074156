//! The check that no terminator names the entry block.

ghost use Rattle.std.specs.Prelude.{◌≡◌, ◌<◌, ◌^◌, length};
ghost use Rattle.ir_resolve.specs.FirstLines.{IsFirst};
ghost use Rattle.ir_reader.specs.FlowFaults.{EntryPredAt};
ghost use Rattle.ir_reader.specs.Predecessors.{ArePredecessors};
ghost use Rattle.ir_core.specs.declared.function.Function.{Function};

use indexmap::IndexSet;
use ir_resolve::lesser;
use ir_tokens::RawFunction;

/// The first line of a terminator (that of its first word) that names the entry block. `predecessors` has those of each
/// block of the function that is meant.
pub(crate) fn named_entry(predecessors: &[IndexSet<u32>], raw: &RawFunction) -> Option<usize>
    requires some_block { 0 < length raw.now.blocks }
    requires blocks { length raw.now.blocks < 2 ^ 32 }
    requires count { length predecessors.now ≡ length raw.now.blocks }
    ensures { (f : Function) → ArePredecessors f predecessors.now → IsFirst (EntryPredAt raw.now f) result }
{
    let first = &predecessors[0];
    let mut found = None;
    for (place, block) in raw.blocks.as_slice().iter().enumerate() {
        let names_first = first.contains(&(place as u32));
        found = lesser(found, names_first.then_some(block.end_line));
    }
    found
}
