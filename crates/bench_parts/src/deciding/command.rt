//! The words of the command line.

ghost use Rattle.std.specs.Prelude.{◌≤◌, IfSome};
ghost use Rattle.cdcl_log.specs.Found.{most_conflicts};

/// The most clauses that a search may learn.
const MOST_CONFLICTS: u32 = 1_000_000;

/// What is printed for a rule.
#[derive(Clone, Copy, Debug)]
pub(super) enum Line {
    /// Its verdict alone.
    Verdict,
    /// Its verdict with sizes and times.
    Measured,
}

/// What the words of the command line ask for.
#[derive(Clone, Copy, Debug)]
pub(super) struct Command<'a> {
    /// The name of the rule file.
    pub(super) rules: &'a str,
    /// The most clauses that a search learns.
    pub(super) conflicts: u32,
    /// What is printed of each rule.
    pub(super) line: Line,
    /// The folder that the clause sets are written to, if any.
    pub(super) folder: Option<&'a str>,
}

impl<'a> Command<'a> {
    /// What the words ask for.
    pub(super) fn of_words(words: &'a [String]) -> Option<Command<'a>>
        ensures { IfSome result (λ command. command.conflicts ≤ most_conflicts) }
    {
        let (rules, conflicts, line, folder) = match words {
            [rules, conflicts] => (rules, conflicts, Line::Measured, None),
            [rules, conflicts, last] if last.as_str() == "untimed" => {
                (rules, conflicts, Line::Verdict, None)
            }
            [rules, conflicts, flag, folder] if flag.as_str() == "--dimacs" => {
                (rules, conflicts, Line::Measured, Some(folder.as_str()))
            }
            _ => return None,
        };
        let conflicts: u32 = conflicts.as_str().parse().ok()?;
        if conflicts > MOST_CONFLICTS {
            return None;
        }
        Some(Command {
            rules: rules.as_str(),
            conflicts,
            line,
            folder,
        })
    }
}
