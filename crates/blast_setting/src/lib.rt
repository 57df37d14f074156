//! The inputs of a rule's circuit, and the settings that are read from their truth values.
//!
//! The only error of a call is want of memory. A call that is refused for that may leave inputs; the older literals
//! keep their values, and it makes no gate.
#![tactic(auto)]

mod choices;
mod inputs;
mod laws;
mod named;
mod setting;
mod setting_bits;
mod setting_widths;

pub use laws::{fitting_settings_are_read, read_settings_fit};
pub use setting::{Setting, setting_of};
pub use setting_bits::{SettingBits, make_setting};
