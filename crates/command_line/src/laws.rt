//! The law of command lines: the contract of a function that does nothing.

ghost use Rattle.command_line.specs.Laws.{WordsSayOneCommand};

/// The words of a command line say at most one command.
pub fn words_say_one_command()
    ensures one { WordsSayOneCommand }
{}
