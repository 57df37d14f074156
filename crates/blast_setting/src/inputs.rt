//! The inputs of a rule's circuit.
ghost use Rattle.std.specs.Prelude.{◌≡◌, Bool, List as Seq, length, map, drop, sum_by, IfOk, OnOk};
ghost use Rattle.std.specs.List.{All};
ghost use Rattle.circuits.specs.Circuit.{Keeps};
ghost use Rattle.blast_value.specs.Effect.{held_value, widths_of, IsOwn};
ghost use Rattle.blast_setting.specs.Inputs.{value_bits, number_bits};
ghost use Rattle.blast_setting.specs.Settings.{value_read, values_read, number_read, numbers_read};
ghost use Rattle.blast_value.specs.Words.{number_held};

use blast_value::Held;
use circuits::{Bits, Circuit};
use lists::List;
use ops::Width;
use std::alloc::{AllocError, Global};

/// Makes inputs for a value of each width: its bits, the lowest first, and then its poison bit.
pub(crate) fn make_values<C: Circuit>(
    alloc: Global,
    c: &mut C,
    widths: &[Width],
) -> Result<Vec<Held<C::Literal>>, AllocError>
    ensures values { IfOk result (λ held. (inputs : Seq Bool) → C.admits c.old inputs →
        map (held_value (C.value c.new inputs)) held.items ≡ values_read widths.now (drop (C.inputs_made c.old) inputs)) }
    ensures widths { IfOk result (λ held. widths_of held.items ≡ widths.now) }
    ensures own { IfOk result (λ held. All (IsOwn (C.has_literal c.new)) held.items) }
    ensures inputs { OnOk result ((inputs : Seq Bool) → C.admits c.old inputs →
        drop (C.inputs_made c.new) inputs ≡ drop (sum_by value_bits widths.now) (drop (C.inputs_made c.old) inputs)) }
    ensures gates { C.gates_made c.new ≡ C.gates_made c.old }
    ensures keeps { Keeps C.State c.old c.new }
{
    let mut held = Vec::new(alloc);
    for width in widths {
        held.push(make_value(alloc, c, *width)?)?;
    }
    Ok(held)
}

/// Makes inputs for a number of each width: its bits, the lowest first.
pub(crate) fn make_numbers<C: Circuit>(
    alloc: Global,
    c: &mut C,
    widths: &[Width],
) -> Result<Vec<Bits<C::Literal>>, AllocError>
    ensures numbers { IfOk result (λ words. (inputs : Seq Bool) → C.admits c.old inputs →
        map (number_held (C.value c.new inputs)) words.items ≡ numbers_read widths.now (drop (C.inputs_made c.old) inputs)) }
    ensures widths { IfOk result (λ words. map length words.items ≡ widths.now) }
    ensures own { IfOk result (λ words. All (All (C.has_literal c.new)) words.items) }
    ensures inputs { OnOk result ((inputs : Seq Bool) → C.admits c.old inputs →
        drop (C.inputs_made c.new) inputs ≡ drop (sum_by number_bits widths.now) (drop (C.inputs_made c.old) inputs)) }
    ensures gates { C.gates_made c.new ≡ C.gates_made c.old }
    ensures keeps { Keeps C.State c.old c.new }
{
    let mut words = Vec::new(alloc);
    for width in widths {
        words.push(make_number(alloc, c, *width)?)?;
    }
    Ok(words)
}

/// Makes the inputs for one value.
fn make_value<C: Circuit>(
    alloc: Global,
    c: &mut C,
    width: Width,
) -> Result<Held<C::Literal>, AllocError>
    ensures value { IfOk result (λ held. (inputs : Seq Bool) → C.admits c.old inputs →
        held_value (C.value c.new inputs) held ≡ value_read width (drop (C.inputs_made c.old) inputs)) }
    ensures width { IfOk result (λ held. length held.bits ≡ width) }
    ensures own { IfOk result (IsOwn (C.has_literal c.new)) }
    ensures inputs { OnOk result ((inputs : Seq Bool) → C.admits c.old inputs →
        drop (C.inputs_made c.new) inputs ≡ drop (value_bits width) (drop (C.inputs_made c.old) inputs)) }
    ensures gates { C.gates_made c.new ≡ C.gates_made c.old }
    ensures keeps { Keeps C.State c.old c.new }
{
    let bits = make_number(alloc, c, width)?;
    let poison = c.input(alloc)?;
    Ok(Held { bits, poison })
}

/// Makes the inputs for one number.
fn make_number<C: Circuit>(
    alloc: Global,
    c: &mut C,
    width: Width,
) -> Result<Bits<C::Literal>, AllocError>
    ensures number { IfOk result (λ word. (inputs : Seq Bool) → C.admits c.old inputs →
        number_held (C.value c.new inputs) word ≡ number_read width (drop (C.inputs_made c.old) inputs)) }
    ensures width { IfOk result (λ word. length word ≡ width) }
    ensures own { IfOk result (All (C.has_literal c.new)) }
    ensures inputs { OnOk result ((inputs : Seq Bool) → C.admits c.old inputs →
        drop (C.inputs_made c.new) inputs ≡ drop (number_bits width) (drop (C.inputs_made c.old) inputs)) }
    ensures gates { C.gates_made c.new ≡ C.gates_made c.old }
    ensures keeps { Keeps C.State c.old c.new }
{
    let mut bits = List::new(alloc);
    for _ in 0..width.bits() {
        let bit = c.input(alloc)?;
        bits.push(bit)?;
    }
    Ok(bits)
}
