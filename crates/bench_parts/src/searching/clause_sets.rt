//! The sets of clauses that are searched.

use super::generator::Generator;
use clauses::{Clause, Cnf, Lit};
use lists::List;
use std::alloc::{AllocError, Global};
use std::fmt;

/// How many literals a clause of a random set has.
const LITERALS_A_CLAUSE: u32 = 3;

/// A set of clauses to search.
#[derive(Clone, Copy, Debug)]
pub(super) enum Family {
    /// This many random clauses of three literals each.
    Random { inputs: u8, clauses: u16, seed: u64 },
    /// This many pigeons, and one hole less: no two may share one.
    Pigeonhole { pigeons: u8 },
    /// The sum of the inputs modulo 2 is 1, taken in one order, and 0, taken in another.
    Parity { inputs: u8, seed: u64 },
}

impl Family {
    /// The set of clauses, whose variables are all inputs.
    pub(super) fn clauses(self, alloc: Global) -> Result<Option<Cnf>, AllocError> {
        let (roots, count) = match self {
            Family::Random {
                inputs,
                clauses,
                seed,
            } => {
                let roots = random_clauses(alloc, inputs, clauses, seed)?;
                (roots, u32::from(inputs))
            }
            Family::Pigeonhole { pigeons } => {
                let holes = pigeons.saturating_sub(1);
                let count = u32::from(pigeons) * u32::from(holes);
                (pigeonhole_clauses(alloc, pigeons, holes)?, count)
            }
            Family::Parity { inputs, seed } => {
                (parity_clauses(alloc, inputs, seed)?, 3 * u32::from(inputs))
            }
        };
        let inputs = List::from_vec((1..=count).collect(alloc)?);
        Ok(Cnf::new(List::new(alloc), roots, inputs, count))
    }
}

impl fmt::Display for Family {
    fn fmt<W: fmt::Write>(&self, f: &mut fmt::Formatter<W>) -> fmt::Result {
        match self {
            Family::Random { inputs, .. } => write!(f, "random {inputs}"),
            Family::Pigeonhole { pigeons } => write!(f, "pigeonhole {pigeons}"),
            Family::Parity { inputs, .. } => write!(f, "parity {inputs}"),
        }
    }
}

/// The variable of this number, or its negation.
fn literal(variable: u16, negated: bool) -> Lit {
    Lit::new(u32::from(variable), negated)
}

/// `many` random clauses over the variables from 1 to `count`.
fn random_clauses(
    alloc: Global,
    count: u8,
    many: u16,
    seed: u64,
) -> Result<List<Clause>, AllocError> {
    let mut generator = Generator::new(seed);
    let mut clauses = List::new(alloc);
    for _ in 0..many {
        clauses.push(random_clause(alloc, count, &mut generator)?)?;
    }
    Ok(clauses)
}

/// A random clause, whose variables differ.
fn random_clause(
    alloc: Global,
    count: u8,
    generator: &mut Generator,
) -> Result<Clause, AllocError> {
    let mut rest: Vec<u8> = (1..=count).collect(alloc)?;
    let mut clause = Clause::new(alloc);
    for _ in 0..LITERALS_A_CLAUSE {
        if rest.is_empty() {
            return Ok(clause);
        }
        let place = generator.below(rest.len());
        let variable = u16::from(rest.swap_remove(place));
        clause.push(literal(variable, generator.below(2) == 1))?;
    }
    Ok(clause)
}

/// The clauses of the pigeonhole principle: each pigeon sits in a hole, and no two in the same one.
fn pigeonhole_clauses(alloc: Global, pigeons: u8, holes: u8) -> Result<List<Clause>, AllocError> {
    let mut clauses = List::new(alloc);
    push_somewhere(alloc, pigeons, holes, &mut clauses)?;
    push_apart(alloc, pigeons, holes, &mut clauses)?;
    Ok(clauses)
}

/// Appends the clauses that say that each pigeon sits in a hole.
fn push_somewhere(
    alloc: Global,
    pigeons: u8,
    holes: u8,
    clauses: &mut List<Clause>,
) -> Result<(), AllocError> {
    for pigeon in 0..pigeons {
        let mut somewhere = Clause::new(alloc);
        for hole in 0..holes {
            somewhere.push(sits(pigeon, hole, holes))?;
        }
        clauses.push(somewhere)?;
    }
    Ok(())
}

/// Appends the clauses that say that no two pigeons sit in the same hole.
fn push_apart(
    alloc: Global,
    pigeons: u8,
    holes: u8,
    clauses: &mut List<Clause>,
) -> Result<(), AllocError> {
    for second in 0..pigeons {
        for first in 0..second {
            for hole in 0..holes {
                let pair = [
                    sits(first, hole, holes).negation(),
                    sits(second, hole, holes).negation(),
                ];
                clauses.push(Clause::from_slice(alloc, &pair)?)?;
            }
        }
    }
    Ok(())
}

/// The literal that says that the pigeon sits in the hole; both are numbered from 0.
fn sits(pigeon: u8, hole: u8, holes: u8) -> Lit {
    let variable = u32::from(pigeon) * u32::from(holes) + u32::from(hole) + 1;
    Lit::new(variable, false)
}

/// The clauses of two sums of the same inputs, in two orders, one of which is 1 and one 0.
fn parity_clauses(alloc: Global, inputs: u8, seed: u64) -> Result<List<Clause>, AllocError> {
    let mut generator = Generator::new(seed);
    let mut clauses = List::new(alloc);
    let count = u16::from(inputs);
    for parity in 0..2 {
        let order = shuffled(alloc, inputs, &mut generator)?;
        let sums = (parity + 1) * count + 1;
        push_sums(alloc, &order, sums, parity == 0, &mut clauses)?;
    }
    Ok(clauses)
}

/// The numbers from 1 to the count in a random order.
fn shuffled(alloc: Global, count: u8, generator: &mut Generator) -> Result<Vec<u8>, AllocError> {
    let mut rest: Vec<u8> = (1..=count).collect(alloc)?;
    let mut order = Vec::new(alloc);
    for _ in 0..count {
        if rest.is_empty() {
            break;
        }
        let place = generator.below(rest.len());
        order.push(rest.swap_remove(place))?;
    }
    Ok(order)
}

/// Appends the clauses that say that the variables from `first` on are the sums modulo 2 of the first input, the first
/// two, and so on, and that the last of them is odd or even.
fn push_sums(
    alloc: Global,
    inputs: &[u8],
    first: u16,
    is_odd: bool,
    clauses: &mut List<Clause>,
) -> Result<(), AllocError> {
    let Some((&start, rest)) = inputs.split_first() else {
        return Ok(());
    };
    let mut sum = u16::from(start);
    for (&input, next) in rest.iter().zip(first..u16::MAX) {
        push_sum(alloc, [sum, u16::from(input), next], clauses)?;
        sum = next;
    }
    let last = literal(sum, !is_odd);
    clauses.push(Clause::from_slice(alloc, &[last])?)
}

/// Appends the clauses that say that an even number of the three variables are true.
fn push_sum(
    alloc: Global,
    variables: [u16; 3],
    clauses: &mut List<Clause>,
) -> Result<(), AllocError> {
    let signs = [
        [true, false, false],
        [false, true, false],
        [false, false, true],
        [true, true, true],
    ];
    for negated in signs {
        let mut clause = Clause::new(alloc);
        for (variable, negated) in variables.into_iter().zip(negated) {
            clause.push(literal(variable, negated))?;
        }
        clauses.push(clause)?;
    }
    Ok(())
}
