//! A binary heap of places, with one at the root that no other comes before: the children of the entry at index k are
//! at 2k + 1 and 2k + 2.

ghost use Rattle.std.specs.Prelude.{◌≡◌, ◌+◌, ◌*◌, ◌<◌, ◌≤◌, ◌↔◌, [], ◌∷◌, length, All, IsTrue, IfSome, IfNone, vec_len, vec_capacity};
ghost use Rattle.std.specs.List.Sorted.{IsPermutation};
ghost use Rattle.places.specs.Heaps.{IsNumbered, ComesBefore, IsHeap, IsRising, IsSinking, IsLeastBelow, rank_at};

use crate::order::Order;
use crate::place::Place;

/// Whether the first comes before the second, by block and then in the order of the block, which removed instructions
/// stay in.
pub(crate) fn comes_before(orders: &[Order], one: Place, other: Place) -> bool
    requires one { IsNumbered orders.now one }
    requires other { IsNumbered orders.now other }
    ensures { IsTrue result ↔ ComesBefore orders.now one other }
{
    if one.block != other.block {
        return one.block < other.block;
    }
    orders[one.block as usize].is_before(one.number, other.number)
}

/// Pushes a place onto the heap, whose vector has room for it.
pub(crate) fn push(orders: &[Order], heap: &mut Vec<Place>, place: Place)
    requires place { IsNumbered orders.now place }
    requires heap { IsHeap orders.now heap.old.items }
    requires room { vec_len heap.old < vec_capacity heap.old }
    ensures heap { IsHeap orders.now heap.new.items }
    ensures pushed { IsPermutation (place ∷ heap.old.items) heap.new.items }
{
    heap.push_reserved(place);
    let last = heap.len() - 1;
    rise(orders, heap.as_mut_slice(), last);
}

/// Pops the root, before which no place of the heap comes.
pub(crate) fn pop(orders: &[Order], heap: &mut Vec<Place>) -> Option<Place>
    requires { IsHeap orders.now heap.old.items }
    ensures heap { IsHeap orders.now heap.new.items }
    ensures first { IfSome result (λ place. All (λ other. ¬ ComesBefore orders.now other place) heap.old.items) }
    ensures popped { IfSome result (λ place. IsPermutation heap.old.items (place ∷ heap.new.items)) }
    ensures none { IfNone result (heap.old.items ≡ []) }
    ensures kept { IfNone result (heap.new.items ≡ heap.old.items) }
{
    if heap.is_empty() {
        return None;
    }
    let first = heap.swap_remove(0);
    sink(orders, heap.as_mut_slice());
    Some(first)
}

/// Sifts an entry up, past each parent that it comes before.
fn rise(orders: &[Order], heap: &mut [Place], mut at: usize)
    requires numbered { All (IsNumbered orders.now) heap.old }
    requires at { at < length heap.old }
    requires rising { IsRising (rank_at orders.now heap.old) (length heap.old) at }
    ensures heap { IsHeap orders.now heap.new }
    ensures same { IsPermutation heap.old heap.new }
{
    while at > 0 {
        let over = (at - 1) / 2;
        if comes_before(orders, heap[at], heap[over]) {
            heap.swap(at, over);
            at = over;
        } else {
            return;
        }
    }
}

/// Sifts the root down, past the child that comes first, as long as that comes before it.
fn sink(orders: &[Order], heap: &mut [Place])
    requires numbered { All (IsNumbered orders.now) heap.old }
    requires sinking { IsSinking (rank_at orders.now heap.old) (length heap.old) 0 }
    ensures heap { IsHeap orders.now heap.new }
    ensures same { IsPermutation heap.old heap.new }
{
    let mut at = 0;
    while let Some(below) = least_below(orders, heap, at) {
        if comes_before(orders, heap[below], heap[at]) {
            heap.swap(at, below);
            at = below;
        } else {
            return;
        }
    }
}

/// The index of the child that comes first, where there is a child.
fn least_below(orders: &[Order], heap: &[Place], at: usize) -> Option<usize>
    requires numbered { All (IsNumbered orders.now) heap.now }
    requires at { at ≤ length heap.now }
    ensures below { IfSome result (IsLeastBelow (rank_at orders.now heap.now) (length heap.now) at) }
    ensures none { IfNone result (length heap.now ≤ 2 * at + 1) }
{
    let left = 2 * at + 1;
    if left >= heap.len() {
        return None;
    }
    let right = left + 1;
    if right < heap.len() && comes_before(orders, heap[right], heap[left]) {
        Some(right)
    } else {
        Some(left)
    }
}
