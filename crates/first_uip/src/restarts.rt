//! When to restart: where the clauses that were learned of late span more levels than those before (literal block
//! distance, Glucose).

use clauses::Lit;

/// The mean of late clauses is an exponential moving average: the newest one counts for one in so many.
const LATE: u64 = 32;

/// There are at least so many conflicts between two restarts.
const SHORTEST: u32 = 16;

/// How many levels the learned clauses span.
#[derive(Clone, Copy)]
pub(crate) struct Restarts {
    /// The mean of late clauses, in 65,536ths.
    late: u64,
    /// The sum over all clauses, and how many these are.
    total: u64,
    clauses: u64,
    /// The conflicts since the last restart.
    run: u32,
}

/// How many levels the literals of a clause span, which are in the order of the trail.
pub(crate) fn levels_of(clause: &[Lit], levels: &[u32]) -> u32 {
    let mut spanned: u32 = 0;
    // the level that was counted last; what stands before the first decision is of level 0, which isn't counted
    let mut last = 0;
    for literal in clause {
        let level = levels
            .get(literal.variable() as usize)
            .copied()
            .unwrap_or(last);
        if level != last {
            spanned = spanned.saturating_add(1);
            last = level;
        }
    }
    spanned
}

impl Restarts {
    /// No conflict yet.
    pub(crate) fn new() -> Restarts {
        Restarts {
            late: 0,
            total: 0,
            clauses: 0,
            run: 0,
        }
    }

    /// Counts a conflict, whose clause spans so many levels. The answer is whether to restart: the last restart is long
    /// enough ago, and the late mean is more than a fifth above the mean of all.
    pub(crate) fn count_conflict(&mut self, levels: u32) -> bool {
        let scaled = u64::from(levels) << 16;
        self.late = (self.late - self.late / LATE).saturating_add(scaled / LATE);
        self.total = self.total.saturating_add(u64::from(levels));
        self.clauses = self.clauses.saturating_add(1);
        self.run = self.run.saturating_add(1);
        if self.run < SHORTEST || !self.are_late_higher() {
            return false;
        }
        self.run = 0;
        true
    }

    /// Whether the mean of late clauses is more than a fifth above that of all.
    fn are_late_higher(&self) -> bool {
        let late = self.late.saturating_mul(self.clauses).saturating_mul(5);
        let all = self.total.saturating_mul(6) << 16;
        late > all
    }
}
