//! Numbers in decimal.

ghost use Rattle.std.specs.Prelude.{◌≡◌, ◌≤◌, ◌<◌, ◌⊎◌, ◌+◌, ◌*◌, ◌-◌, ◌∷◌, false, IfOk, IfErr, IfSome, IfNone};
ghost use Rattle.scan.specs.Bytes.{is_digit};
ghost use Rattle.proof_text.specs.Reading.{ReadsNumber, Numbers, BeginsNoNumber, IsLonger, IsLongest, StopsIn};

use crate::stop::{Stop, Stopped};
use refusal::Refusal;

/// Which numbers may stand, and the two bytes of which one stands behind each.
#[derive(Clone, Copy)]
pub(crate) struct Form {
    /// The least number, 0 or 1.
    pub least: u64,
    /// The greatest number, above which there is none; every number where it is 2^64 - 1.
    pub most: u64,
    pub ends: (u8, u8),
    pub ghost low: { least ≤ 1 },
    pub ghost high: { 10 ≤ most },
    pub ghost no_digits: { (is_digit ends.0 ≡ false) × (is_digit ends.1 ≡ false) },
}

/// The digit that a byte is.
fn digit(byte: u8) -> Option<u64>
    ensures some { IfSome result (λ value. (byte ≡ 48 + value) × (value < 10)) }
    ensures none { IfNone result ((byte < 48) ⊎ (57 < byte)) }
{
    if byte.is_ascii_digit() {
        Some(u64::from(byte - b'0'))
    } else {
        None
    }
}

/// The number of the digit that numbers begin with here, and goes behind it.
fn first_digit(rest: &mut &[u8], least: u64) -> Option<u64>
    ensures some { IfSome result (λ value. (least ≤ value) × (value < 10) × (rest.old.now ≡ (48 + value) ∷ rest.new.now)) }
    ensures none { IfNone result (BeginsNoNumber least rest.old.now × (rest.new.now ≡ rest.old.now)) }
{
    let [byte, behind @ ..] = *rest else {
        return None;
    };
    let value = digit(*byte)?;
    if value < least {
        return None;
    }
    *rest = behind;
    Some(value)
}

/// The number with one more digit, where it may stand.
fn longer(number: u64, byte: u8, most: u64) -> Option<u64>
    ensures some { IfSome result (IsLonger number byte most) }
    ensures none { IfNone result (IsLongest number byte most) }
{
    if number == 0 {
        return None;
    }
    let value = number.saturating_mul(10).saturating_add(digit(byte)?);
    if value <= most { Some(value) } else { None }
}

/// A number, which is 2^64 - 1 where it is more, and the byte behind it.
#[tactic(auto, using(crate::proofs::NumberReadings::no_number, crate::proofs::NumberReadings::number_ends, crate::proofs::NumberReadings::number_stops, crate::proofs::NumberReadings::first_so_far, crate::proofs::NumberReadings::longer_so_far, crate::proofs::NumberReadings::ended))]
pub(crate) fn number(rest: &mut &[u8], form: Form) -> Result<(u64, u8), Stopped>
    ensures ok { IfOk result (λ x. ReadsNumber form.least form.most form.ends.0 form.ends.1 x.0 x.1 rest.old.now rest.new.now) }
    ensures stop { IfErr result (λ e. StopsIn (Numbers form.least form.most form.ends.0 form.ends.1) e rest.old.now rest.new.now) }
{
    let Some(mut value) = first_digit(rest, form.least) else {
        return Err(Refusal::Refused(Stop));
    };
    loop {
        let [byte, behind @ ..] = *rest else {
            return Err(Refusal::Refused(Stop));
        };
        let byte = *byte;
        if byte == form.ends.0 || byte == form.ends.1 {
            *rest = behind;
            return Ok((value, byte));
        }
        let Some(more) = longer(value, byte, form.most) else {
            return Err(Refusal::Refused(Stop));
        };
        value = more;
        *rest = behind;
    }
}
