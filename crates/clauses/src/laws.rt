//! Laws about the definitions: functions without a body, whose contracts are the laws.
ghost use Rattle.std.specs.Prelude.{Bool, ℕ};
ghost use Rattle.clauses.specs.Literal.{Meets};
ghost use Rattle.clauses.specs.ClauseSet.{all_clauses, clauses_of_steps, LogFollows, IsRefutation};

use crate::{Cnf, Log};

/// Reverse unit propagation is sound: a model of the set makes each clause of a log that follows
/// true.
pub fn model_meets_log(set: &Cnf, log: &Log)
    ensures { LogFollows set.now log.now → (v : ℕ → Bool) → Meets v (all_clauses set.now) → Meets v (clauses_of_steps log.now) }
{}

/// A refuted set has no model.
pub fn refuted_has_no_model(set: &Cnf, log: &Log)
    ensures { IsRefutation set.now log.now → (v : ℕ → Bool) → ¬ (Meets v (all_clauses set.now)) }
{}
