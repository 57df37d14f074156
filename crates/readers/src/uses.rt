//! Use lists: for each register the instructions and terminators that read it; and counts of uses.

ghost use Rattle.std.specs.Prelude.{◌≡◌, ◌+◌, ◌≤◌, ◌<◌, ◌^◌, ◌++◌, ◌↔◌, ◌⊎◌, ℕ, List as Seq, [], ◌∷◌, All, Contains, IsTrue, IfOk, OnErr, OnOk, length, replicate, slice_index_or, slice_set};
ghost use Rattle.std.specs.List.{filter_map};
ghost use Rattle.ir_core.specs.Checks.{IsKnown};
ghost use Rattle.ir_core.specs.Reads.{Read, IsRead};
ghost use Rattle.ir_core.specs.declared.operand.Register.{Register as Named};
ghost use Rattle.use_counts.specs.Tables.{HasNumber, count_of};
ghost use Rattle.places.specs.Orders.{none};
ghost use Rattle.readers.specs.Readers.{arena_place, IsReader, IsPlaceIn, HasList, HaveLists, IsListed, IsListedAmong, IsListSetTo, AreListed, listed_for, AreReadersOf};
ghost use Rattle.readers.specs.Counts.{AreCounted, HasNumbers, IsSetTo, operands_at, register_of, times};
ghost use Rattle.places.specs.declared.place.Place.{Place as Spot};

use ir_core::{Function, Operand, Register, end_of, read_at, read_count};
use lists::List;
use places::{END, Place};
use std::alloc::{AllocError, Global};
use std::mem;
use use_counts::{Uses, uses_of};

/// For each register a use list: the places of all that reads it, and perhaps of some that ceased to, which aren't
/// taken off at once.
#[derive(Drop)]
pub struct Readers {
    /// For each parameter.
    pub parameters: List<List<Place>>,
    /// For each block, a list for the result of each of its instructions.
    pub results: Vec<List<List<Place>>>,
}

impl Readers {
    /// The use lists of a function's registers.
    pub fn of(alloc: Global, f: &Function) -> Result<Readers, AllocError>
        requires blocks { length f.now.blocks < 2 ^ 32 }
        requires insts { All (λ b. length b.insts ≤ none) f.now.blocks }
        requires known { (b k i : ℕ) (r : Read) → IsRead f.now b k i r → IsKnown f.now r.operand }
        ensures readers { IfOk result (AreReadersOf f.now) }
        ensures only { IfOk result (λ readers. (r : Named) (p : Spot) → Contains (listed_for readers r) p → IsReader f.now r p) }
    {
        let mut readers = Readers::none(alloc, f)?;
        for block in 0..f.blocks.len() as u32 {
            readers.list_block(f, block)?;
        }
        Ok(readers)
    }

    /// An empty list for each register of a function.
    fn none(alloc: Global, f: &Function) -> Result<Readers, AllocError>
        ensures there { IfOk result (λ readers. (r : Named) → IsKnown f.now (Operand.Register r) → HasList readers r) }
        ensures none { IfOk result (λ readers. (r : Named) → listed_for readers r ≡ []) }
    {
        let parameters = rows(alloc, f.parameters.len())?;
        let mut results = Vec::new(alloc);
        for block in f.blocks.as_slice() {
            results.push(rows(alloc, block.insts.len())?)?;
        }
        Ok(Readers {
            parameters,
            results,
        })
    }

    /// Lists each place of a block for the registers that are read there.
    fn list_block(&mut self, f: &Function, block: u32) -> Result<(), AllocError>
        requires block { block < length f.now.blocks }
        requires insts { All (λ b. length b.insts ≤ none) f.now.blocks }
        requires known { (b k i : ℕ) (r : Read) → IsRead f.now b k i r → IsKnown f.now r.operand }
        requires there { (r : Named) → IsKnown f.now (Operand.Register r) → HasList self.old r }
        ensures there { OnOk result ((r : Named) → HasList self.old r → HasList self.new r) }
        ensures listed { OnOk result ((r : Named) (p : Spot) → Contains (listed_for self.new r) p
            ↔ (Contains (listed_for self.old r) p ⊎ ((p.block ≡ block) × IsPlaceIn f.now p × IsReader f.now r p))) }
    {
        for number in 0..end_of(f, block) {
            list_reads(f, self, Place { block, number })?;
        }
        list_reads(f, self, Place { block, number: END })
    }

    /// An empty list for one more instruction of a block. Where memory is refused the lists are as they were.
    pub fn push_list(&mut self, alloc: Global, block: u32) -> Result<(), AllocError>
        requires { block < length self.old.results.items }
        ensures parameters { self.new.parameters ≡ self.old.parameters }
        ensures results { OnOk result (self.new.results.items
            ≡ slice_set self.old.results.items block (slice_index_or self.old.results.items block [] ++ [] ∷ [])) }
        ensures refused { OnErr result (self.new.results.items ≡ self.old.results.items) }
    {
        self.results[block as usize].push(List::new(alloc))
    }

    /// Adds a place to a register's list, unless it is its last entry: so an instruction that reads a register twice is
    /// listed once. Where memory is refused the lists are as they were.
    pub fn list(&mut self, register: Register, place: Place) -> Result<(), AllocError>
        requires { HasList self.old register }
        ensures listed { OnOk result (IsListed register place self.old self.new) }
        ensures parameters { OnErr result (self.new.parameters ≡ self.old.parameters) }
        ensures results { OnErr result (self.new.results.items ≡ self.old.results.items) }
    {
        match register {
            Register::Parameter(k) => list_in(&mut self.parameters, k, place),
            Register::Result(block, number) => list_at(&mut self.results, block, number, place),
        }
    }

    /// Replaces a register's list, and returns the one that was there.
    pub fn exchange(&mut self, register: Register, places: List<Place>) -> List<Place>
        requires { HasList self.old register }
        ensures was { result ≡ listed_for self.old register }
        ensures is { IsListSetTo register places self.old self.new }
    {
        match register {
            Register::Parameter(k) => exchange_in(&mut self.parameters, k, places),
            Register::Result(block, number) => {
                exchange_at(&mut self.results, block, number, places)
            }
        }
    }
}

/// Adds a place to the list for the result of an instruction.
fn list_at(
    rows: &mut Vec<List<List<Place>>>,
    block: u32,
    number: u32,
    place: Place,
) -> Result<(), AllocError>
    requires block { block < length rows.old.items }
    requires number { number < length (slice_index_or rows.old.items block []) }
    ensures listed { OnOk result ((places : Seq Spot)
        × IsListedAmong place (slice_index_or (slice_index_or rows.old.items block []) number []) places
        × (rows.new.items ≡ slice_set rows.old.items block (slice_set (slice_index_or rows.old.items block []) number places))) }
    ensures refused { OnErr result (rows.new.items ≡ rows.old.items) }
{
    list_in(&mut rows[block as usize], number, place)
}

/// Adds a place to one of the lists of a row.
fn list_in(rows: &mut List<List<Place>>, index: u32, place: Place) -> Result<(), AllocError>
    requires { index < length rows.old }
    ensures listed { OnOk result ((places : Seq Spot) × IsListedAmong place (slice_index_or rows.old index []) places
        × (rows.new ≡ slice_set rows.old index places)) }
    ensures refused { OnErr result (rows.new ≡ rows.old) }
{
    list_last(rows.get_mut(index as usize), place)
}

/// Appends a place to a list, unless it is its last entry.
fn list_last(places: &mut List<Place>, place: Place) -> Result<(), AllocError>
    ensures listed { OnOk result (IsListedAmong place places.old places.new) }
    ensures refused { OnErr result (places.new ≡ places.old) }
{
    if ends_in(places.as_slice(), place) {
        return Ok(());
    }
    places.push(place)
}

/// Whether this place is the last one of a list.
fn ends_in(places: &[Place], place: Place) -> bool
    ensures { IsTrue result → Contains places.now place }
{
    let count = places.len();
    if count == 0 {
        return false;
    }
    are_same(places[count - 1], place)
}

fn are_same(one: Place, other: Place) -> bool
    ensures { IsTrue result ↔ (one ≡ other) }
{
    one == other
}

/// Replaces the list for the result of an instruction, and returns the one that was there.
fn exchange_at(
    rows: &mut Vec<List<List<Place>>>,
    block: u32,
    number: u32,
    places: List<Place>,
) -> List<Place>
    requires block { block < length rows.old.items }
    requires number { number < length (slice_index_or rows.old.items block []) }
    ensures was { result ≡ slice_index_or (slice_index_or rows.old.items block []) number [] }
    ensures is { rows.new.items ≡ slice_set rows.old.items block (slice_set (slice_index_or rows.old.items block []) number places) }
{
    exchange_in(&mut rows[block as usize], number, places)
}

/// Replaces one of the lists of a row, and returns the one that was there.
fn exchange_in(rows: &mut List<List<Place>>, index: u32, places: List<Place>) -> List<Place>
    requires { index < length rows.old }
    ensures was { result ≡ slice_index_or rows.old index [] }
    ensures is { rows.new ≡ slice_set rows.old index places }
{
    mem::replace(rows.get_mut(index as usize), places)
}

/// Writes a register's count of uses.
fn set_count(uses: &mut Uses, register: Register, count: usize)
    requires { HasNumber uses.old register }
    ensures { IsSetTo register count uses.old uses.new }
{
    match register {
        Register::Parameter(k) => set_in(&mut uses.parameters, k, count),
        Register::Result(block, number) => set_at(&mut uses.results, block, number, count),
    }
}

/// Writes the count of uses for the result of an instruction.
fn set_at(rows: &mut Vec<List<usize>>, block: u32, number: u32, count: usize)
    requires block { block < length rows.old.items }
    requires number { number < length (slice_index_or rows.old.items block []) }
    ensures { rows.new.items ≡ slice_set rows.old.items block (slice_set (slice_index_or rows.old.items block []) number count) }
{
    set_in(&mut rows[block as usize], number, count)
}

/// Writes a count in a row.
fn set_in(row: &mut List<usize>, index: u32, count: usize)
    requires { index < length row.old }
    ensures { row.new ≡ slice_set row.old index count }
{
    *row.get_mut(index as usize) = count;
}

/// The index at which the arena has what is at a place: a block's terminator has the one past its last instruction.
fn arena_place(arena: &Function, place: Place) -> u32
    requires { All (λ b. length b.insts < 2 ^ 32) arena.now.blocks }
    ensures { result ≡ arena_place arena.now place }
{
    if place.number == END {
        end_of(arena, place.block)
    } else {
        place.number
    }
}

/// How many operands are read at a place.
fn count_at(arena: &Function, place: Place) -> usize
    requires { All (λ b. length b.insts < 2 ^ 32) arena.now.blocks }
    ensures { result ≡ length (operands_at arena.now place) }
{
    read_count(arena, place.block, arena_place(arena, place))
}

/// The operand with this index among those that are read at a place, and `poison` past the last.
fn operand_at(arena: &Function, place: Place, index: usize) -> Operand
    requires { All (λ b. length b.insts < 2 ^ 32) arena.now.blocks }
    ensures { result ≡ slice_index_or (operands_at arena.now place) index Operand.Poison }
{
    match read_at(arena, place.block, arena_place(arena, place), index) {
        Some(read) => read.operand,
        None => Operand::Poison,
    }
}

/// Counts one use, where the operand is a register.
fn count_operand(uses: &mut Uses, operand: Operand) -> Result<(), AllocError>
    requires { HasNumbers uses.old (operand ∷ []) }
    ensures { OnOk result (AreCounted (operand ∷ []) uses.old uses.new) }
{
    let Operand::Register(register) = operand else {
        return Ok(());
    };
    let used = uses_of(uses, register);
    let count = one_more(used)?;
    set_count(uses, register, count);
    Ok(())
}

/// The next count, if a `usize` holds it.
fn one_more(count: usize) -> Result<usize, AllocError>
    ensures { IfOk result (λ more. more ≡ count + 1) }
{
    count.checked_add(1).ok_or(AllocError)
}

/// Takes back the count of one use, where the operand is a register.
fn forget_operand(uses: &mut Uses, operand: Operand)
    requires there { HasNumbers uses.old (operand ∷ []) }
    requires counted { (r : Named) → times r (operand ∷ []) ≤ count_of uses.old r }
    ensures { AreCounted (operand ∷ []) uses.new uses.old }
{
    let Operand::Register(register) = operand else {
        return;
    };
    let count = uses_of(uses, register) - 1;
    set_count(uses, register, count);
}

/// Counts the uses of registers at a place.
pub fn count_reads(arena: &Function, uses: &mut Uses, place: Place) -> Result<(), AllocError>
    requires insts { All (λ b. length b.insts < 2 ^ 32) arena.now.blocks }
    requires there { HasNumbers uses.old (operands_at arena.now place) }
    ensures { OnOk result (AreCounted (operands_at arena.now place) uses.old uses.new) }
{
    for index in 0..count_at(arena, place) {
        count_operand(uses, operand_at(arena, place, index))?;
    }
    Ok(())
}

/// Takes back the counts of the uses of registers at a place.
pub fn forget_reads(arena: &Function, uses: &mut Uses, place: Place)
    requires insts { All (λ b. length b.insts < 2 ^ 32) arena.now.blocks }
    requires there { HasNumbers uses.old (operands_at arena.now place) }
    requires counted { (r : Named) → times r (operands_at arena.now place) ≤ count_of uses.old r }
    ensures { AreCounted (operands_at arena.now place) uses.new uses.old }
{
    for index in 0..count_at(arena, place) {
        forget_operand(uses, operand_at(arena, place, index));
    }
}

/// Adds a place to the use list of each register that is read there.
pub fn list_reads(arena: &Function, readers: &mut Readers, place: Place) -> Result<(), AllocError>
    requires insts { All (λ b. length b.insts < 2 ^ 32) arena.now.blocks }
    requires there { HaveLists readers.old (operands_at arena.now place) }
    ensures { OnOk result (AreListed place (operands_at arena.now place) readers.old readers.new) }
{
    for index in 0..count_at(arena, place) {
        if let Operand::Register(register) = operand_at(arena, place, index) {
            readers.list(register, place)?;
        }
    }
    Ok(())
}

/// Appends the registers that are read at a place to others. It takes its memory first: where that is refused, the
/// others are as they were.
pub fn push_reads(
    arena: &Function,
    dead_candidates: &mut Vec<Register>,
    place: Place,
) -> Result<(), AllocError>
    requires { All (λ b. length b.insts < 2 ^ 32) arena.now.blocks }
    ensures pushed { OnOk result (dead_candidates.new.items ≡ dead_candidates.old.items ++ filter_map register_of (operands_at arena.now place)) }
    ensures refused { OnErr result (dead_candidates.new.items ≡ dead_candidates.old.items) }
{
    let count = count_at(arena, place);
    dead_candidates.reserve(count)?;
    for index in 0..count {
        if let Operand::Register(register) = operand_at(arena, place, index) {
            dead_candidates.push_reserved(register);
        }
    }
    Ok(())
}

/// Whether what is at a place reads the register.
pub fn reads(arena: &Function, place: Place, register: Register) -> bool
    requires { All (λ b. length b.insts < 2 ^ 32) arena.now.blocks }
    ensures { IsTrue result ↔ Contains (operands_at arena.now place) (Operand.Register register) }
{
    for index in 0..count_at(arena, place) {
        if is(operand_at(arena, place, index), register) {
            return true;
        }
    }
    false
}

/// Whether an operand is the register.
pub fn is(operand: Operand, register: Register) -> bool
    ensures { IsTrue result ↔ (operand ≡ Operand.Register register) }
{
    operand == Operand::Register(register)
}

/// Those of some places at which the register is read.
pub fn readers_among(arena: &Function, places: List<Place>, register: Register) -> List<Place>
    requires { All (λ b. length b.insts < 2 ^ 32) arena.now.blocks }
    ensures { (p : Spot) → Contains result p ↔ (Contains places p × Contains (operands_at arena.now p) (Operand.Register register)) }
{
    let mut places = places.into_vec();
    let mut kept = 0;
    for index in 0..places.len() {
        let place = places[index];
        if reads(arena, place, register) {
            places[kept] = place;
            kept += 1;
        }
    }
    places.truncate(kept);
    List::from_vec(places)
}

/// So many empty lists.
fn rows(alloc: Global, count: usize) -> Result<List<List<Place>>, AllocError>
    ensures { IfOk result (λ rows. rows ≡ replicate count []) }
{
    let mut rows = List::new(alloc);
    for _k in 0..count {
        rows.push(List::new(alloc))?;
    }
    Ok(rows)
}
