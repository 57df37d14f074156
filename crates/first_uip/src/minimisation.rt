//! Clause minimisation: which literals of earlier levels a learned clause needs (recursive minimisation, Sörensson and
//! Biere).

ghost use Rattle.std.specs.Prelude.{◌≡◌, ◌+◌, ◌<◌, ◌≤◌, length, IfSome, IsTrue, All};
ghost use Rattle.clauses.specs.ClauseSet.{LogFollows, clauses_with};
ghost use Rattle.depth_first.specs.TrailEntries.{EachForced};
ghost use Rattle.first_uip.specs.Conflict.{NoneDecided, Resolves, SameKeptFrom};
ghost use Rattle.first_uip.specs.Marks.{EachMarked, IsPlaced};

use crate::blocks::seen_before;
use crate::roles::{Role, resolve};
use clauses::{Cnf, Lit, Step};
use depth_first::{Trail, numbered};

/// How many reasons deep the search for redundant literals goes, so that the recursion stays within the stack.
const DEPTH: u32 = 1000;

/// The place of a variable's entry, if it stands where it was noted last.
fn place_of(trail: &Trail, places: &[usize], variable: u32) -> Option<usize>
    requires { variable < length places.now }
    ensures { IfSome result (λ place. place < length trail.now.entries.items) }
{
    let place = places[variable as usize];
    if place < trail.entries.len() && trail.entries[place].literal.variable() == variable {
        Some(place)
    } else {
        None
    }
}

/// Whether all variables of the clause but this one are implied: the conflict rests on them, or their entries are
/// redundant. The answer for each variable is noted in `implied`, so that none is looked into twice.
#[cycle(redundancy)]
fn all_implied(
    cnf: &Cnf,
    log: &[Step],
    trail: &Trail,
    places: &[usize],
    root: usize,
    roles: &[Role],
    implied: &mut [Option<bool>],
    clause: &[Lit],
    but: u32,
    depth: u32,
) -> bool
    requires variables { length trail.now.values.items ≡ cnf.now.count + 1 }
    requires places { length places.now ≡ cnf.now.count + 1 }
    requires roles { length roles.now ≡ cnf.now.count + 1 }
    requires size { length implied.old ≡ cnf.now.count + 1 }
    requires follows { LogFollows cnf.now log.now }
    requires forced { EachForced (clauses_with cnf.now log.now) trail.now.entries.items }
    requires within { All (λ l. l.variable < length implied.old) clause.now }
{
    for literal in clause {
        let variable = literal.variable();
        if variable == but || roles[variable as usize] != Role::Unseen {
            continue;
        }
        let known = match implied[variable as usize] {
            Some(known) => known,
            None => match place_of(trail, places, variable) {
                Some(place) => {
                    is_redundant(cnf, log, trail, places, root, roles, implied, place, depth)
                }
                None => false,
            },
        };
        implied[variable as usize] = Some(known);
        if !known {
            return false;
        }
    }
    true
}

/// Whether the entry at a place has a reason, and stands before `root`, the first decision, or all other variables of
/// the reason are implied.
#[cycle(redundancy)]
fn is_redundant(
    cnf: &Cnf,
    log: &[Step],
    trail: &Trail,
    places: &[usize],
    root: usize,
    roles: &[Role],
    implied: &mut [Option<bool>],
    place: usize,
    depth: u32,
) -> bool
    requires variables { length trail.now.values.items ≡ cnf.now.count + 1 }
    requires places { length places.now ≡ cnf.now.count + 1 }
    requires roles { length roles.now ≡ cnf.now.count + 1 }
    requires size { length implied.old ≡ cnf.now.count + 1 }
    requires follows { LogFollows cnf.now log.now }
    requires forced { EachForced (clauses_with cnf.now log.now) trail.now.entries.items }
    requires within { place < length trail.now.entries.items }
    ensures { IsTrue result → NoneDecided trail.now.entries.items place (place + 1) }
{
    let entry = trail.entries[place];
    match entry.cause.reason() {
        None => false,
        Some(number) => {
            let clause = numbered(cnf, log, number);
            let but = entry.literal.variable();
            place < root
                || (depth > 0
                    && all_implied(
                        cnf,
                        log,
                        trail,
                        places,
                        root,
                        roles,
                        implied,
                        clause,
                        but,
                        depth - 1,
                    ))
        }
    }
}

/// Of the entries before `start` on which the conflict rests, resolves the redundant ones and keeps the others.
pub(crate) fn settle_earlier(
    cnf: &Cnf,
    log: &[Step],
    trail: &Trail,
    places: &[usize],
    root: usize,
    start: usize,
    implied: &mut [Option<bool>],
    blocks: &mut [bool],
    roles: &mut [Role],
)
    requires variables { length trail.now.values.items ≡ cnf.now.count + 1 }
    requires places { length places.now ≡ cnf.now.count + 1 }
    requires placed { IsPlaced places.now trail.now.entries.items (length trail.now.entries.items) }
    requires implied { length implied.old ≡ cnf.now.count + 1 }
    requires size { length roles.old ≡ cnf.now.count + 1 }
    requires marked { EachMarked blocks.old places.now roles.old }
    requires follows { LogFollows cnf.now log.now }
    requires forced { EachForced (clauses_with cnf.now log.now) trail.now.entries.items }
    requires within { start ≤ length trail.now.entries.items }
    ensures resolves { Resolves (clauses_with cnf.now log.now) trail.now.entries.items start roles.old 0 roles.new }
    ensures same_later { SameKeptFrom trail.now.entries.items roles.old roles.new start }
    ensures marked { EachMarked blocks.new places.now roles.new }
{
    let mut end = start;
    while let Some(place) = seen_before(trail, roles, blocks, end) {
        if is_redundant(cnf, log, trail, places, root, roles, implied, place, DEPTH) {
            resolve(cnf, log, trail, places, place, blocks, roles);
        } else {
            roles[trail.entries[place].literal.variable() as usize] = Role::Kept;
        }
        end = place;
    }
}
