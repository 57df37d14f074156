//! Blocks of the trail. Those without an entry on which the conflict rests are passed over.

ghost use Rattle.std.specs.Prelude.{◌≡◌, ◌+◌, ◌<◌, ◌≤◌, ℕ, true, length, IfSome, IfNone};
ghost use Rattle.first_uip.specs.Conflict.{NoneSeen, SeenAt};
ghost use Rattle.first_uip.specs.Marks.{IsMarked, IsPlaced, is_marked};

use crate::roles::Role;
use depth_first::Trail;

/// How many entries a block has.
pub(crate) const BLOCK: usize = 32;

/// How many decisions stand before a place, by the table of the levels.
fn level_before(trail: &Trail, place: usize, levels: &[u32]) -> u32
    requires { length levels.now ≡ length trail.now.values.items }
{
    if place == 0 || place > trail.entries.len() {
        return 0;
    }
    levels[trail.entries[place - 1].literal.variable() as usize]
}

/// Notes for each entry from a place on where it stands, and its level: how many decisions stand up
/// to and with it.
pub(crate) fn note_places(trail: &Trail, start: usize, places: &mut [usize], levels: &mut [u32])
    requires size { length places.old ≡ length trail.now.values.items }
    requires levels { length levels.old ≡ length trail.now.values.items }
    requires placed { IsPlaced places.old trail.now.entries.items start }
    ensures { IsPlaced places.new trail.now.entries.items (length trail.now.entries.items) }
{
    let mut level = level_before(trail, start, levels);
    for place in start..trail.entries.len() {
        let entry = trail.entries[place];
        if entry.cause.is_decision() {
            level = level.saturating_add(1);
        }
        let variable = entry.literal.variable() as usize;
        places[variable] = place;
        levels[variable] = level;
    }
}

/// Whether the block of the place is marked. Behind the last block each counts as marked.
fn is_marked(blocks: &[bool], place: usize) -> bool
    ensures { result ≡ is_marked blocks.now place }
{
    let block = place / BLOCK;
    if block < blocks.len() {
        blocks[block]
    } else {
        true
    }
}

/// Marks the block of the place, if there is one.
pub(crate) fn mark(place: usize, blocks: &mut [bool])
    ensures here { is_marked blocks.new place ≡ true }
    ensures still { (k : ℕ) → is_marked blocks.old k ≡ true → is_marked blocks.new k ≡ true }
{
    let block = place / BLOCK;
    if block < blocks.len() {
        blocks[block] = true;
    }
}

/// The last place before `end` of an entry on which the conflict rests.
pub(crate) fn seen_before(
    trail: &Trail,
    roles: &[Role],
    blocks: &[bool],
    end: usize,
) -> Option<usize>
    requires size { length roles.now ≡ length trail.now.values.items }
    requires within { end ≤ length trail.now.entries.items }
    requires marked { IsMarked trail.now.entries.items roles.now blocks.now }
    ensures before { IfSome result (λ place. place < end) }
    ensures seen { IfSome result (SeenAt trail.now.entries.items roles.now) }
    ensures last { IfSome result (λ place. NoneSeen trail.now.entries.items roles.now (place + 1) end) }
    ensures none { IfNone result (NoneSeen trail.now.entries.items roles.now 0 end) }
{
    let mut place = end;
    while place > 0 {
        place -= 1;
        if !is_marked(blocks, place) {
            place = place / BLOCK * BLOCK;
            continue;
        }
        if roles[trail.entries[place].literal.variable() as usize] != Role::Unseen {
            return Some(place);
        }
    }
    None
}

/// The first place from `start` on and before `end` of an entry on which the conflict rests.
pub(crate) fn seen_from(
    trail: &Trail,
    roles: &[Role],
    blocks: &[bool],
    start: usize,
    end: usize,
) -> Option<usize>
    requires size { length roles.now ≡ length trail.now.values.items }
    requires within { end ≤ length trail.now.entries.items }
    requires marked { IsMarked trail.now.entries.items roles.now blocks.now }
    ensures from { IfSome result (λ place. start ≤ place) }
    ensures before { IfSome result (λ place. place < end) }
    ensures seen { IfSome result (SeenAt trail.now.entries.items roles.now) }
    ensures first { IfSome result (NoneSeen trail.now.entries.items roles.now start) }
    ensures none { IfNone result (NoneSeen trail.now.entries.items roles.now start end) }
{
    let mut place = start;
    while place < end {
        if !is_marked(blocks, place) {
            place = place / BLOCK * BLOCK + BLOCK;
            continue;
        }
        if roles[trail.entries[place].literal.variable() as usize] != Role::Unseen {
            return Some(place);
        }
        place += 1;
    }
    None
}
