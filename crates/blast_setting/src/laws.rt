//! The laws of settings that are read, each the contract of a function that does nothing.
ghost use Rattle.blast_setting.specs.Laws.{ReadSettingsFit, FittingSettingsAreRead};

/// Each list of truth values is read as a setting that fits the rule and its typing.
pub fn read_settings_fit()
    ensures { ReadSettingsFit }
{}

/// Each setting that fits is read from some list of as many truth values as the circuit has inputs.
pub fn fitting_settings_are_read()
    ensures { FittingSettingsAreRead }
{}
