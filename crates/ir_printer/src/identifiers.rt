//! The identifiers of all registers and blocks of a function, found by index.

ghost use Rattle.std.specs.Prelude.{◌≡◌, ◌≤◌, ◌∷◌, [], ◌++◌, length, map, slice_get, option_map, IfOk, OnOk};
ghost use Rattle.std.specs.List.{flat_map};
ghost use Rattle.ir_core.specs.Names.{block_names};
ghost use Rattle.ir_resolve.specs.Identifiers.{identifiers_from, identifiers_of, identifier_of};
ghost use Rattle.ir_text.specs.PrintedText.{block_identifier};
ghost use Rattle.ir_printer.specs.Series.{seen, Adds, AreBlockStarts};

use crate::identifier::Identifier;
use ir_core::{Block, Function, Inst, Parameter, Register};
use lists::Text;
use std::alloc::{AllocError, Global};

/// A function with its identifiers in text order, and the index of the first identifier of each block.
#[derive(Drop)]
pub(crate) struct Identifiers<'a> {
    pub(crate) function: &'a Function,
    in_order: Vec<Identifier<'a>>,
    starts: Vec<usize>,
    ghost all_identifiers: { map seen in_order.items ≡ identifiers_of function.now },
    ghost all_starts: { AreBlockStarts (length function.now.parameters)
        function.now.blocks starts.items },
}

/// Appends the identifier of a thing with this name: without a name it takes the next number of the series.
///
/// Returns the number with which the series goes on.
fn add_name<'a>(
    in_order: &mut Vec<Identifier<'a>>,
    next_number: u64,
    name: &'a Option<Text>,
) -> Result<u64, AllocError>
    requires { next_number ≤ length in_order.old.items }
    ensures adds { IfOk result
        (Adds next_number (name.now ∷ []) in_order.old.items in_order.new.items) }
    ensures counted { IfOk result (λ next. next ≤ length in_order.new.items) }
{
    match name {
        Some(name) => {
            in_order.push(Identifier::Named(name.as_slice()))?;
            Ok(next_number)
        }
        None => {
            in_order.push(Identifier::Numbered(next_number))?;
            Ok(next_number + 1)
        }
    }
}

fn add_parameters<'a>(
    in_order: &mut Vec<Identifier<'a>>,
    parameters: &'a [Parameter],
) -> Result<u64, AllocError>
    ensures adds { IfOk result
        (Adds 0 (map (λ p. p.name) parameters.now) in_order.old.items in_order.new.items) }
    ensures counted { IfOk result (λ next. next ≤ length in_order.new.items) }
{
    let mut next_number = 0;
    for parameter in parameters {
        next_number = add_name(in_order, next_number, &parameter.name)?;
    }
    Ok(next_number)
}

fn add_results<'a>(
    in_order: &mut Vec<Identifier<'a>>,
    mut next_number: u64,
    insts: &'a [Inst],
) -> Result<u64, AllocError>
    requires { next_number ≤ length in_order.old.items }
    ensures adds { IfOk result
        (Adds next_number (map (λ i. i.name) insts.now) in_order.old.items in_order.new.items) }
    ensures counted { IfOk result (λ next. next ≤ length in_order.new.items) }
{
    for inst in insts {
        next_number = add_name(in_order, next_number, &inst.name)?;
    }
    Ok(next_number)
}

/// Appends the identifiers of a block and of its results. Returns the number with which the series goes on.
fn add_block<'a>(
    in_order: &mut Vec<Identifier<'a>>,
    next_number: u64,
    block: &'a Block,
) -> Result<u64, AllocError>
    requires { next_number ≤ length in_order.old.items }
    ensures adds { IfOk result
        (Adds next_number (block_names block.now) in_order.old.items in_order.new.items) }
    ensures counted { IfOk result (λ next. next ≤ length in_order.new.items) }
{
    let next_number = add_name(in_order, next_number, &block.name)?;
    add_results(in_order, next_number, block.insts.as_slice())
}

/// Appends the identifiers of blocks. Returns the index of each block's own identifier.
fn add_blocks<'a>(
    alloc: Global,
    in_order: &mut Vec<Identifier<'a>>,
    mut next_number: u64,
    blocks: &'a [Block],
) -> Result<Vec<usize>, AllocError>
    requires { next_number ≤ length in_order.old.items }
    ensures adds { OnOk result (map seen in_order.new.items
        ≡ map seen in_order.old.items
        ++ identifiers_from next_number (flat_map block_names blocks.now)) }
    ensures starts { IfOk result
        (λ starts. AreBlockStarts (length in_order.old.items) blocks.now starts.items) }
{
    let mut starts = Vec::new(alloc);
    for block in blocks {
        starts.push(in_order.len())?;
        next_number = add_block(in_order, next_number, block)?;
    }
    Ok(starts)
}

/// The identifiers of a function.
pub(crate) fn identifiers_in(
    alloc: Global,
    function: &Function,
) -> Result<Identifiers<'_>, AllocError>
    ensures { IfOk result (λ called. called.function.now ≡ function.now) }
{
    let mut in_order = Vec::new(alloc);
    let next_number = add_parameters(&mut in_order, function.parameters.as_slice())?;
    let starts = add_blocks(
        alloc,
        &mut in_order,
        next_number,
        function.blocks.as_slice(),
    )?;
    Ok(Identifiers {
        function,
        in_order,
        starts,
    })
}

impl<'a> Identifiers<'a> {
    /// The identifier at an index in text order, if there is one.
    fn at(&self, place: usize) -> Option<Identifier<'a>>
        ensures { option_map seen result ≡ slice_get (identifiers_of self.now.function.now) place }
    {
        self.in_order.get(place).copied()
    }

    /// The index of a block's own identifier, if the function has the block.
    fn start(&self, block: usize) -> Option<usize>
        ensures { result ≡ slice_get self.now.starts.items block }
    {
        self.starts.get(block).copied()
    }

    /// The identifier of a block, if the function has it.
    pub(crate) fn block(&self, block: usize) -> Option<Identifier<'a>>
        ensures { option_map seen result ≡ block_identifier self.now.function.now block }
    {
        let start = self.start(block)?;
        self.at(start)
    }

    /// The identifier of a parameter, if the function has it.
    pub(crate) fn parameter(&self, parameter: usize) -> Option<Identifier<'a>>
        ensures { option_map seen result
            ≡ identifier_of self.now.function.now (Register.Parameter parameter) }
    {
        self.at(parameter)
    }

    /// The identifier of an instruction's result, by the index of its block and its own there, if the function has it.
    pub(crate) fn result(&self, block: usize, inst: usize) -> Option<Identifier<'a>>
        ensures { option_map seen result
            ≡ identifier_of self.now.function.now (Register.Result block inst) }
    {
        let start = self.start(block)?;
        let place = start.checked_add(1)?.checked_add(inst)?;
        self.at(place)
    }

    /// The identifier of a register, if the function has it.
    pub(crate) fn register(&self, register: Register) -> Option<Identifier<'a>>
        ensures { option_map seen result ≡ identifier_of self.now.function.now register }
    {
        match register {
            Register::Parameter(parameter) => self.parameter(parameter as usize),
            Register::Result(block, inst) => self.result(block as usize, inst as usize),
        }
    }
}
