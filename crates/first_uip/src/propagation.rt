//! Unit propagation by watched literals.

ghost use Rattle.std.specs.Prelude.{◌≡◌, ◌+◌, ◌-◌, ◌<◌, length, IfOk, IfSome, IfNone};
ghost use Rattle.clauses.specs.Literal.{VariablesWithin};
ghost use Rattle.clauses.specs.Propagation.{NamesFalse};
ghost use Rattle.depth_first.specs.TrailEntries.{literals, Grows};
ghost use Rattle.first_uip.specs.Clauses.{clauses_in};
ghost use Rattle.first_uip.specs.Watching.{CoversBelow, IsWatching, IsWatchingUpTo};

use crate::look::{Look, look_at};
use crate::watches::Watches;
use depth_first::Trail;
use std::alloc::AllocError;

/// Looks at the clauses in the watch list of the negation of the entry at `head`, up to the first that is false.
fn propagate_entry(
    watches: &mut Watches,
    trail: &mut Trail,
    head: usize,
) -> Result<Option<u32>, AllocError>
    requires covers { CoversBelow (length trail.old.values.items) watches.old }
    requires variables { VariablesWithin (length trail.old.values.items - 1) (clauses_in watches.old.arena) }
    requires watching { IsWatchingUpTo (clauses_in watches.old.arena) watches.old trail.old.entries.items head }
    requires within { head < length trail.old.entries.items }
    ensures same_variables { length trail.new.values.items ≡ length trail.old.values.items }
    ensures same_clauses { clauses_in watches.new.arena ≡ clauses_in watches.old.arena }
    ensures covers { CoversBelow (length trail.old.values.items) watches.new }
    ensures grows { Grows (clauses_in watches.old.arena) trail.old.entries.items trail.new.entries.items }
    ensures watching { IfOk result (λ _. IsWatching (clauses_in watches.old.arena) watches.new trail.new.entries.items) }
    ensures seen { IfOk result (λ conflict. IfNone conflict (IsWatchingUpTo (clauses_in watches.old.arena) watches.new trail.new.entries.items (head + 1))) }
    ensures falsified { IfOk result (λ conflict. IfSome conflict (NamesFalse (clauses_in watches.old.arena) (literals trail.new.entries.items))) }
{
    let falsified = trail.entries[head].literal.negation();
    let mut place = 0;
    while place < watches.of(falsified).len() {
        let watcher = watches.of(falsified)[place];
        if trail.holds(watcher.blocker) {
            place += 1;
            continue;
        }
        match look_at(watches, trail, watcher.number, falsified)? {
            Look::Stays(held) => {
                watches.block(falsified, place, held);
                place += 1;
            }
            Look::Leaves => watches.drop_number(falsified, place),
            Look::Falsified => return Ok(Some(watcher.number)),
        }
    }
    Ok(None)
}

/// Propagates the entries from `head` on, which are the propagation queue, and those that are pushed meanwhile, up to
/// the first clause that is false.
pub(crate) fn propagate(
    watches: &mut Watches,
    trail: &mut Trail,
    mut head: usize,
) -> Result<Option<u32>, AllocError>
    requires covers { CoversBelow (length trail.old.values.items) watches.old }
    requires variables { VariablesWithin (length trail.old.values.items - 1) (clauses_in watches.old.arena) }
    requires watching { IsWatchingUpTo (clauses_in watches.old.arena) watches.old trail.old.entries.items head }
    ensures same_variables { length trail.new.values.items ≡ length trail.old.values.items }
    ensures same_clauses { clauses_in watches.new.arena ≡ clauses_in watches.old.arena }
    ensures covers { CoversBelow (length trail.old.values.items) watches.new }
    ensures grows { Grows (clauses_in watches.old.arena) trail.old.entries.items trail.new.entries.items }
    ensures watching { IfOk result (λ _. IsWatching (clauses_in watches.old.arena) watches.new trail.new.entries.items) }
    ensures seen { IfOk result (λ conflict. IfNone conflict (IsWatchingUpTo (clauses_in watches.old.arena) watches.new trail.new.entries.items (length trail.new.entries.items))) }
    ensures falsified { IfOk result (λ conflict. IfSome conflict (NamesFalse (clauses_in watches.old.arena) (literals trail.new.entries.items))) }
{
    while head < trail.entries.len() {
        let conflict = propagate_entry(watches, trail, head)?;
        if conflict.is_some() {
            return Ok(conflict);
        }
        head += 1;
    }
    Ok(None)
}
