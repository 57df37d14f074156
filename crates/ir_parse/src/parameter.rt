//! Parsing parameters.

ghost use Rattle.ir_tokens.specs.SeenTokens.{seen};
ghost use Rattle.refusal.specs.Refusals.{Gives};
ghost use Rattle.ir_parse.specs.ModuleReaders as parsing;

use ir_instructions::{Part, each, integer_type, is_mark, last_items, mark};
use ir_tokens::{IrError, Placed, RawIdentifier, RawParameter, Token, identifier};
use lists::List;
use std::alloc::Global;

/// Parses the name of a parameter, if it has one.
#[tactic(auto, unfolding(crate::specs::ModuleReaders::parameter_name_at))]
fn parameter_name(
    alloc: Global,
    tokens: &mut &[Placed<'_>],
) -> Result<Option<RawIdentifier>, IrError>
    ensures { Gives (λ x. (x, seen tokens.new.now)) result (parsing.parameter_name_at (seen tokens.old.now)) }
{
    match *tokens {
        [Placed { line, token }, rest @ ..] => match *token {
            Token::Register(written) => {
                *tokens = rest;
                Ok(Some(RawIdentifier {
                    line: *line,
                    identifier: identifier(alloc, written)?,
                }))
            }
            _ => Ok(None),
        },
        [] => Ok(None),
    }
}

/// Parses a parameter.
#[tactic(auto, unfolding(crate::specs::ModuleReaders::parameter_at))]
fn parameter(alloc: Global, tokens: &mut &[Placed<'_>]) -> Result<RawParameter, IrError>
    ensures { Gives (λ x. (x, seen tokens.new.now)) result (parsing.parameter_at (seen tokens.old.now)) }
{
    let width = integer_type(alloc, tokens)?;
    let items = last_items(alloc, tokens)?;
    let name = parameter_name(alloc, tokens)?;
    Ok(RawParameter { width, items, name })
}

/// The production of a further parameter, behind a `,`.
enum FurtherParameter {}

impl Part for FurtherParameter {
    ghost use Rattle.ir_instructions.specs.Punctuation as marks;
    ghost use Rattle.ir_instructions.specs.InstructionReaders.{is_mark};
    ghost use Rattle.ir_parse.specs.ModuleReaders.{further_parameter_at};

    ghost begins = { is_mark marks.comma };

    ghost reader = { further_parameter_at };

    type Value = RawParameter;

    fn is_next(tokens: &[Placed<'_>]) -> bool {
        is_mark(b',', tokens)
    }

    #[tactic(auto, unfolding(crate::specs::ModuleReaders::further_parameter_at))]
    fn read(alloc: Global, tokens: &mut &[Placed<'_>]) -> Result<RawParameter, IrError> {
        mark(b',', tokens)?;
        parameter(alloc, tokens)
    }
}

/// Parses a list of at least one parameter.
#[tactic(auto, unfolding(crate::specs::ModuleReaders::some_parameters_at))]
fn some_parameters(alloc: Global, tokens: &mut &[Placed<'_>]) -> Result<List<RawParameter>, IrError>
    ensures { Gives (λ x. (x, seen tokens.new.now)) result (parsing.some_parameters_at (seen tokens.old.now)) }
{
    let mut parameters = List::new(alloc);
    parameters.push(parameter(alloc, tokens)?)?;
    each::<FurtherParameter>(alloc, parameters, tokens)
}

/// Parses a list of parameters, maybe empty, up to the `)`.
#[tactic(auto, unfolding(crate::specs::ModuleReaders::parameter_list_at))]
fn parameter_list(alloc: Global, tokens: &mut &[Placed<'_>]) -> Result<List<RawParameter>, IrError>
    ensures { Gives (λ x. (x, seen tokens.new.now)) result (parsing.parameter_list_at (seen tokens.old.now)) }
{
    if is_mark(b')', *tokens) {
        Ok(List::new(alloc))
    } else {
        some_parameters(alloc, tokens)
    }
}

/// Parses the parameters of a function, in their brackets.
#[tactic(auto, unfolding(crate::specs::ModuleReaders::parameters_at))]
pub(crate) fn parameters(
    alloc: Global,
    tokens: &mut &[Placed<'_>],
) -> Result<List<RawParameter>, IrError>
    ensures { Gives (λ x. (x, seen tokens.new.now)) result (parsing.parameters_at (seen tokens.old.now)) }
{
    mark(b'(', tokens)?;
    let parameters = parameter_list(alloc, tokens)?;
    mark(b')', tokens)?;
    Ok(parameters)
}
