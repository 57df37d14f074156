//! The trail: which literals are held, that is, assigned true, and why.

ghost use Rattle.std.specs.Prelude.{◌≡◌, ◌+◌, ◌*◌, length};
ghost use Rattle.clauses.specs.Literal.{code_of};
ghost use Rattle.depth_first.specs.TrailEntries.{IsTableOf, IsHeldTable, EachFresh, open_count};

use crate::Assignment;
use clauses::Lit;
use lists::List;
use std::alloc::{AllocError, Global};

/// Why a literal is held: it was decided, or a clause forced it.
#[derive(Clone, Copy)]
pub enum Cause {
    /// A decision on an input.
    InputDecision,
    /// A decision on a variable that is no input, once all inputs had values.
    NonInputDecision,
    /// The reason: the clause of this number, all other literals of which were false.
    Reason(u32),
}

/// A literal that is held, and its cause.
#[derive(Clone, Copy)]
pub struct Entry {
    pub literal: Lit,
    pub cause: Cause,
}

/// The literals that are held, in the order in which they were assigned, with tables of the variables' values and of
/// the literals that are held.
#[derive(Drop)]
pub struct Trail {
    pub entries: Vec<Entry>,
    /// The value of each variable that has one; place 0 belongs to none.
    pub values: Vec<Option<bool>>,
    /// Whether each literal is held, by its code.
    pub held: Vec<bool>,
    pub ghost table: { IsTableOf values.items entries.items },
    pub ghost codes: { length held.items ≡ 2 * length values.items },
    pub ghost marked: { IsHeldTable held.items entries.items },
    pub ghost fresh: { EachFresh values.items entries.items },
    pub ghost counted: { open_count values.items + length entries.items ≡ length values.items },
}

/// The code of a literal, by which tables of literals have their places: twice the number of its variable, and one more
/// where it is negated (MiniSat).
pub fn code_of(literal: Lit) -> usize
    ensures { result ≡ code_of literal }
{
    2 * literal.variable() as usize + usize::from(literal.is_negated())
}

impl Cause {
    ghost use Rattle.std.specs.Prelude.{◌≡◌};
    ghost use Rattle.depth_first.specs.TrailEntries.{is_decision, reason_of};

    /// The number of the clause that is the reason, unless the literal was decided.
    pub fn reason(self) -> Option<u32>
        ensures { result ≡ reason_of self }
    {
        match self {
            Cause::InputDecision | Cause::NonInputDecision => None,
            Cause::Reason(number) => Some(number),
        }
    }

    /// Whether the literal was decided.
    pub fn is_decision(self) -> bool
        ensures { result ≡ is_decision self }
    {
        match self {
            Cause::InputDecision | Cause::NonInputDecision => true,
            Cause::Reason(_) => false,
        }
    }
}

impl Trail {
    ghost use Rattle.std.specs.Prelude.{◌≡◌, ◌+◌, ◌-◌, ◌<◌, ◌≤◌, true, [], ◌∷◌, ◌++◌, map, drop, length, take, OnOk, OnErr, IfOk, IfSome, IfNone};
    ghost use Rattle.clauses.specs.Literal.{literal_of};
    ghost use Rattle.clauses.specs.Propagation.{is_held};
    ghost use Rattle.depth_first.specs.TrailEntries.{literals, decisions, IsOpen, value_or_false, IsLastDecision, IsFlipped};

    /// The empty trail over the variables from 1 to `count`.
    pub fn new(alloc: Global, count: u32) -> Result<Trail, AllocError>
        ensures empty { IfOk result (λ trail. trail.entries.items ≡ []) }
        ensures variables { IfOk result (λ trail. length trail.values.items ≡ count + 1) }
    {
        Ok(Trail {
            entries: Vec::new(alloc),
            values: vec![in alloc; None; count as usize + 1]?,
            held: vec![in alloc; false; 2 * (count as usize + 1)]?,
        })
    }

    /// The value of a variable, if it has one.
    pub fn value(&self, variable: u32) -> Option<bool>
        requires { variable < length self.now.values.items }
        ensures open { IfNone result (IsOpen (literals self.now.entries.items) variable) }
        ensures set { IfSome result (λ value. is_held (literals self.now.entries.items) (literal_of variable value) ≡ true) }
    {
        self.values[variable as usize]
    }

    /// Whether the literal is held.
    pub fn holds(&self, literal: Lit) -> bool
        requires { literal.variable < length self.now.values.items }
        ensures { result ≡ is_held (literals self.now.entries.items) literal }
    {
        self.held[code_of(literal)]
    }

    /// The values of the variables from 1 on, where one without a value counts as false.
    pub fn assignment(&self, alloc: Global) -> Result<Assignment, AllocError>
        ensures { IfOk result (λ values. values ≡ map value_or_false (drop 1 self.now.values.items)) }
    {
        let mut values = List::new(alloc);
        for variable in 1..self.values.len() {
            values.push(self.values[variable].unwrap_or(false))?;
        }
        Ok(values)
    }

    /// Pushes an entry of a variable without a value.
    pub fn push(&mut self, entry: Entry) -> Result<(), AllocError>
        requires first { 1 ≤ entry.literal.variable }
        requires last { entry.literal.variable < length self.old.values.items }
        requires open { IsOpen (literals self.old.entries.items) entry.literal.variable }
        ensures ok { OnOk result (self.new.entries.items ≡ self.old.entries.items ++ entry ∷ []) }
        ensures err { OnErr result (self.new.entries.items ≡ self.old.entries.items) }
        ensures variables { length self.new.values.items ≡ length self.old.values.items }
    {
        let place = entry.literal.variable() as usize;
        let code = code_of(entry.literal);
        let value = !entry.literal.is_negated();
        self.entries.push(entry)?;
        self.values[place] = Some(value);
        self.held[code] = true;
        Ok(())
    }

    /// Pops the last entry.
    fn pop(&mut self)
        ensures entries { self.new.entries.items ≡ take (length self.old.entries.items - 1) self.old.entries.items }
        ensures variables { length self.new.values.items ≡ length self.old.values.items }
    {
        if let Some(entry) = self.entries.pop() {
            self.values[entry.literal.variable() as usize] = None;
            self.held[code_of(entry.literal)] = false;
        }
    }

    /// Pops all entries but the first `kept`.
    pub fn cut(&mut self, kept: usize)
        ensures entries { self.new.entries.items ≡ take kept self.old.entries.items }
        ensures variables { length self.new.values.items ≡ length self.old.values.items }
    {
        while self.entries.len() > kept {
            self.pop();
        }
    }

    /// The place of the last decision.
    pub fn last_decision(&self) -> Option<usize>
        ensures none { IfNone result (decisions self.now.entries.items ≡ []) }
        ensures last { IfSome result (IsLastDecision self.now.entries.items) }
    {
        let mut last = None;
        for (place, entry) in self.entries.iter().enumerate() {
            if entry.cause.is_decision() {
                last = Some(place);
            }
        }
        last
    }

    /// Flips the decision at a place: pops it and all entries behind it, and pushes the decision's negation, with the
    /// clause of this number as its reason.
    pub fn flip_decision(&mut self, place: usize, reason: u32) -> Result<(), AllocError>
        requires { place < length self.old.entries.items }
        ensures ok { OnOk result (IsFlipped self.old.entries.items place reason self.new.entries.items) }
        ensures variables { length self.new.values.items ≡ length self.old.values.items }
    {
        let literal = self.entries[place].literal.negation();
        self.cut(place);
        self.push(Entry {
            literal,
            cause: Cause::Reason(reason),
        })?;
        Ok(())
    }
}
