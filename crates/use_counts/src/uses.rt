//! Tables of how often registers are used.

ghost use Rattle.std.specs.Prelude.{◌≡◌, slice_index_or};
ghost use Rattle.ir_core.specs.declared.function.Function.{Function};
ghost use Rattle.use_counts.specs.Tables.{AreCounts, count_of};
ghost use Rattle.use_counts.specs.Uses.{IsUseCount};

use ir_core::Register;
use lists::List;

/// Use counts: for each parameter of a function and each result of an instruction, how many operands of the whole
/// function name it.
#[derive(Drop)]
pub struct Uses {
    pub parameters: List<usize>,
    /// For each block a row, with a number for each of its instructions.
    pub results: Vec<List<usize>>,
}

/// The number that a table has for a register, and 0 where it has none. Where the table is exact for a function, that
/// is how many of its operands name the register. It takes no memory.
pub fn uses_of(uses: &Uses, register: Register) -> usize
    ensures number { result ≡ count_of uses.now register }
    ensures count { (f : Function) → AreCounts f uses.now → IsUseCount f register result }
{
    match register {
        Register::Parameter(parameter) => number_in(uses.parameters.as_slice(), parameter),
        Register::Result(block, place) => match uses.results.get(block as usize) {
            Some(row) => number_in(row.as_slice(), place),
            None => 0,
        },
    }
}

/// The number at an index of a row, and 0 where there is none.
fn number_in(row: &[usize], place: u32) -> usize
    ensures { result ≡ slice_index_or row.now place 0 }
{
    match row.get(place as usize) {
        Some(number) => *number,
        None => 0,
    }
}
