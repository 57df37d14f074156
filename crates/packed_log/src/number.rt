//! Numbers of variable length (LEB128).

ghost use Rattle.std.specs.Prelude.{◌≡◌, ◌^◌, ◌<◌, ◌≤◌, length, take, drop, All, OnOk};
ghost use Rattle.packed_log.specs.Numbers.{first_number, behind_number};
ghost use Rattle.packed_log.specs.Words.{Adds, IsNumber};

use std::alloc::AllocError;

/// Adds a number at the end of the bytes.
pub(crate) fn push_number(bytes: &mut Vec<u8>, number: u64) -> Result<(), AllocError>
    ensures { OnOk result (Adds (IsNumber number) bytes.old.items bytes.new.items) }
{
    let mut rest = number;
    while rest >= 128 {
        bytes.push((rest % 128) as u8 + 128)?;
        rest /= 128;
    }
    bytes.push(rest as u8)?;
    Ok(())
}

/// How many bytes at the start have the high bit set, so that more bytes of the number follow.
fn leading(bytes: &[u8]) -> usize
    ensures within { result ≤ length bytes.now }
    ensures more { All (λ byte. 128 ≤ byte) (take result bytes.now) }
    ensures stops { All (λ byte. byte < 128) (take 1 (drop result bytes.now)) }
{
    let mut count = 0;
    while count < bytes.len() && bytes[count] >= 128 {
        count += 1;
    }
    count
}

/// The number that the bytes begin with, of which `count` bytes have the high bit set.
fn number_at(bytes: &[u8], count: usize) -> u64
    requires few { first_number bytes.now < 2 ^ 64 }
    requires within { count ≤ length bytes.now }
    requires more { All (λ byte. 128 ≤ byte) (take count bytes.now) }
    requires stops { All (λ byte. byte < 128) (take 1 (drop count bytes.now)) }
    ensures { result ≡ first_number bytes.now }
{
    let mut number = match bytes.get(count) {
        None => 0,
        Some(last) => u64::from(*last),
    };
    for place in (0..count).rev() {
        number = 128 * number + u64::from(bytes[place] - 128);
    }
    number
}

/// Reads the number that the bytes begin with, and leaves the bytes behind it in `rest`. A number that was pushed has
/// ten bytes at most.
pub(crate) fn take_number(rest: &mut &[u8]) -> u64
    requires { first_number rest.old.now < 2 ^ 64 }
    ensures number { result ≡ first_number rest.old.now }
    ensures behind { rest.new.now ≡ behind_number rest.old.now }
{
    let bytes = *rest;
    let count = leading(bytes);
    *rest = &bytes[bytes.len().min(count + 1)..];
    number_at(bytes, count)
}
