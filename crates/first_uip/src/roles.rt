//! The roles of variables in a conflict.

ghost use Rattle.std.specs.Prelude.{◌≡◌, ◌+◌, ◌<◌, ℕ, true, length, All};
ghost use Rattle.clauses.specs.ClauseSet.{LogFollows, clauses_with};
ghost use Rattle.depth_first.specs.TrailEntries.{EachForced};
ghost use Rattle.first_uip.specs.Conflict.{NoneDecided, Resolves, Sees, is_kept, is_seen, role_of};
ghost use Rattle.first_uip.specs.Marks.{EachMarked};

use crate::blocks::mark;
use clauses::{Cnf, Lit, Step};
use depth_first::{Trail, numbered};

/// The role of a variable in a conflict.
#[derive(Clone, Copy, PartialEq, Eq)]
pub(crate) enum Role {
    /// The conflict doesn't rest on it, as far as it is known.
    Unseen,
    /// The conflict rests on it, and its reason is resolved with: the hints have that clause.
    Resolved,
    /// The conflict rests on it, and the learned clause has it.
    Kept,
}

/// The variables of the clause are seen: those that weren't are to be resolved, and the blocks of their entries are
/// marked.
pub(crate) fn see(clause: &[Lit], places: &[usize], blocks: &mut [bool], roles: &mut [Role])
    requires within { All (λ l. l.variable < length roles.old) clause.now }
    requires places { length places.now ≡ length roles.old }
    requires marked { EachMarked blocks.old places.now roles.old }
    ensures sees { Sees clause.now roles.old roles.new }
    ensures marked { EachMarked blocks.new places.now roles.new }
{
    for literal in clause {
        let variable = literal.variable() as usize;
        if roles[variable] == Role::Unseen {
            roles[variable] = Role::Resolved;
            let place = places[variable];
            mark(place, blocks);
        }
    }
}

/// Resolves the entry at a place, if the conflict rests on it: the variables of its reason are seen.
pub(crate) fn resolve(
    cnf: &Cnf,
    log: &[Step],
    trail: &Trail,
    places: &[usize],
    place: usize,
    blocks: &mut [bool],
    roles: &mut [Role],
)
    requires variables { length trail.now.values.items ≡ cnf.now.count + 1 }
    requires places { length places.now ≡ cnf.now.count + 1 }
    requires marked { EachMarked blocks.old places.now roles.old }
    requires size { length roles.old ≡ cnf.now.count + 1 }
    requires follows { LogFollows cnf.now log.now }
    requires forced { EachForced (clauses_with cnf.now log.now) trail.now.entries.items }
    requires within { place < length trail.now.entries.items }
    requires reason { NoneDecided trail.now.entries.items place (place + 1) }
    ensures resolves { Resolves (clauses_with cnf.now log.now) trail.now.entries.items (place + 1) roles.old place roles.new }
    ensures still { (n : ℕ) → is_seen (role_of roles.old n) ≡ true → is_seen (role_of roles.new n) ≡ true }
    ensures same_kept { (n : ℕ) → is_kept (role_of roles.new n) ≡ is_kept (role_of roles.old n) }
    ensures marked { EachMarked blocks.new places.now roles.new }
{
    let entry = trail.entries[place];
    if roles[entry.literal.variable() as usize] == Role::Unseen {
        return;
    }
    if let Some(number) = entry.cause.reason() {
        see(numbered(cnf, log, number), places, blocks, roles);
    }
}
