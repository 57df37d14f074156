//! The width of a class of types.
ghost use Rattle.std.specs.Prelude.{◌≡◌, ◌<◌, length, slice_index};

use ops::Width;

/// The width that a typing gives a class of types.
pub fn width_of(typing: &[Width], class: u32) -> Width
    requires { class < length typing.now }
    ensures { result ≡ slice_index typing.now class }
{
    typing[class as usize]
}
