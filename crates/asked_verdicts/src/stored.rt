//! Logs that are stored, so that a rule which was proved before needs no search.

ghost use Rattle.std.specs.Prelude.{◌≡◌, ◌≢◌, None, Some, OnErr, OnOk};
ghost use Rattle.std.specs.Option.{option_copied};
ghost use Rattle.strategy_core.specs.Asked.{Pair};
ghost use Rattle.asked_verdicts.specs.Stored.{log_of, pair_of_key};

use crate::typings::widths_of;
use clauses::Log;
use indexmap::IndexMap;
use rule_core::Typing;
use std::alloc::{AllocError, Global};

/// Logs, each for a pair of a rule and a typing. Any may be stored: one that doesn't prove its rule admits nothing.
#[derive(Drop)]
pub struct StoredLogs {
    /// The logs by their pairs, hashed: finding one takes as long however many there are.
    pub logs: IndexMap<(u32, Vec<u32>), Log>,
}

impl StoredLogs {
    /// No logs. It takes no memory.
    pub fn new(alloc: Global) -> Self
        ensures { (pair : Pair) → log_of result pair ≡ None }
    {
        StoredLogs {
            logs: IndexMap::new(alloc),
        }
    }

    /// Stores the log of a pair, in place of the one that was stored for it. Where memory is refused, the log is
    /// dropped, and what was stored stays.
    pub fn insert(
        &mut self,
        alloc: Global,
        rule: u32,
        typing: &Typing,
        log: Log,
    ) -> Result<(), AllocError>
        ensures stored { OnOk result (log_of self.new (rule, typing.now) ≡ Some log) }
        ensures others { OnOk result ((pair : Pair) → pair ≢ (rule, typing.now) → log_of self.new pair ≡ log_of self.old pair) }
        ensures refused { OnErr result (self.new.logs.entries ≡ self.old.logs.entries) }
    {
        self.logs.insert((rule, widths_of(alloc, typing)?), log)?;
        Ok(())
    }

    /// The log that is stored for a pair, if one is.
    pub(crate) fn log_of(&self, pair: &(u32, Vec<u32>)) -> Option<&Log>
        ensures { option_copied result ≡ log_of self.now (pair_of_key pair.now) }
    {
        self.logs.get(pair)
    }
}
