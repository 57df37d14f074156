//! Which entries of a phi stay.

ghost use Rattle.std.specs.Prelude.{◌≡◌, ◌<◌, ◌≤◌, ℕ, [], length, take};
ghost use Rattle.fold_branch.specs.Folded.{staying};
ghost use Rattle.fold_branch.specs.Marks.{IsMarked, NoneIsMarked, HasEntry, AreBelow};

use crate::plan::Plan;
use ir_core::Operand;
use lists::List;

/// Moves those entries of a phi that stay to the front, and marks their blocks. The answer is how many they are.
fn move_staying(
    plan: &Plan,
    block: u32,
    entries: &mut [(Operand, u32)],
    marks: &mut [bool],
) -> usize
    requires choices { length plan.now.choices.items ≡ length marks.old }
    requires reached { length plan.now.reached.items ≡ length marks.old }
    requires entries { AreBelow (length marks.old) entries.old }
    requires unmarked { NoneIsMarked marks.old }
    ensures count { result ≤ length entries.new }
    ensures entries { take result entries.new
        ≡ staying plan.now.choices.items plan.now.reached.items block [] entries.old }
    ensures marks { (b : ℕ) → IsMarked marks.new b → HasEntry (take result entries.new) b }
    ensures below { AreBelow (length marks.new) (take result entries.new) }
{
    let mut count = 0;
    for place in 0..entries.len() {
        let entry = entries[place];
        let from = entry.1 as usize;
        if plan.stays(block, entry.1, marks[from]) {
            marks[from] = true;
            entries[count] = entry;
            count += 1;
        }
    }
    count
}

/// Takes the marks from the blocks of these entries.
fn unmark(entries: &[(Operand, u32)], marks: &mut [bool])
    requires entries { AreBelow (length marks.old) entries.now }
    requires marks { (b : ℕ) → IsMarked marks.old b → HasEntry entries.now b }
    ensures { NoneIsMarked marks.new }
{
    for entry in entries {
        marks[entry.1 as usize] = false;
    }
}

/// Those entries of a phi of a block that stay. The marks are used on the way: one for each block, none of them set. It
/// takes no memory.
pub(crate) fn staying_entries(
    plan: &Plan,
    block: u32,
    entries: List<(Operand, u32)>,
    marks: &mut [bool],
) -> List<(Operand, u32)>
    requires choices { length plan.now.choices.items ≡ length marks.old }
    requires reached { length plan.now.reached.items ≡ length marks.old }
    requires entries { AreBelow (length marks.old) entries }
    requires unmarked { NoneIsMarked marks.old }
    ensures entries { result ≡ staying plan.now.choices.items plan.now.reached.items block [] entries }
    ensures unmarked { NoneIsMarked marks.new }
{
    let mut entries = entries.into_vec();
    let count = move_staying(plan, block, &mut entries, marks);
    entries.truncate(count);
    unmark(&entries, marks);
    List::from_vec(entries)
}
