//! Lists of numbers.

ghost use Rattle.std.specs.Prelude.{◌≡◌, ◌≢◌, ◌++◌, ◌∷◌, false, IfOk, IfErr};
ghost use Rattle.scan.specs.Bytes.{is_digit};
ghost use Rattle.proof_text.specs.Texts.{widths_text};
ghost use Rattle.proof_text.specs.WellFormed.{AreWidths};
ghost use Rattle.proof_text.specs.Reading.{Lists, StopsIn};

use crate::number::{Form, number};
use crate::stop::Stopped;
use lists::List;
use std::alloc::Global;

/// The greatest hint, and the greatest width.
const MOST_NUMBER: u64 = 4_294_967_295;

/// One number or more, with a space between each two, and the byte `end` behind them.
pub(crate) fn numbers(alloc: Global, rest: &mut &[u8], end: u8) -> Result<List<u32>, Stopped>
    requires no_digit { is_digit end ≡ false }
    requires no_blank { end ≢ 32 }
    ensures ok { IfOk result (λ ns. AreWidths ns × (rest.old.now ≡ widths_text ns ++ end ∷ rest.new.now)) }
    ensures stop { IfErr result (λ e. StopsIn (Lists end) e rest.old.now rest.new.now) }
{
    let form = Form {
        least: 0,
        most: MOST_NUMBER,
        ends: (b' ', end),
    };
    let mut numbers = List::new(alloc);
    loop {
        let (value, last) = number(rest, form)?;
        numbers.push(value as u32)?;
        if last == end {
            return Ok(numbers);
        }
    }
}
