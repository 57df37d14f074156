//! Names of rules that an earlier rule has.

ghost use Rattle.std.specs.Prelude.{IfOk};
ghost use Rattle.rule_reader.specs.RepeatedNames.{MarksRepeated};

use indexmap::IndexMap;
use rule_parse::RawRule;
use std::alloc::{AllocError, Global};

/// For each rule, whether an earlier one has its name, by a map of the names so far.
pub(crate) fn repeated_names(alloc: Global, rules: &[RawRule]) -> Result<Vec<bool>, AllocError>
    ensures { IfOk result (λ repeated. MarksRepeated rules.now repeated.items) }
{
    let mut names = IndexMap::new(alloc);
    let mut repeated = Vec::new(alloc);
    for rule in rules {
        let earlier = names.insert(rule.name.as_slice(), ())?;
        repeated.push(earlier.is_some())?;
    }
    Ok(repeated)
}
