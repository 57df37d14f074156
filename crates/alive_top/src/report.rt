//! The report of `optimise`.

ghost use Rattle.std.specs.Prelude.{◌≡◌, ◌++◌, [], slice_get, IfOk, OnOk};
ghost use Rattle.std.specs.Option.{option_map_or};
ghost use Rattle.alive_top.specs.Optimised.{optimised_report};
ghost use Rattle.verdict.specs.Table.{row_text, table_text};

use ir_printer::print_report;
use rule_reader::Rule;
use std::alloc::{AllocError, Global};
use strategy_core::Done;
use verdict_core::{Row, push_verdict};

/// Appends the text of a row's verdict on its rule.
fn push_row(out: &mut Vec<u8>, rules: &[Rule], row: &Row) -> Result<(), AllocError>
    ensures { OnOk result (out.new.items ≡ out.old.items ++ option_map_or (λ rule. row_text rule row.now) (slice_get rules.now row.now.rule) []) }
{
    let Some(rule) = rules.get(row.rule as usize) else {
        return Ok(());
    };
    push_verdict(out, rule, &row.typing, &row.verdict)
}

/// Appends the texts of verdicts, in order.
fn push_table(out: &mut Vec<u8>, rules: &[Rule], table: &[Row]) -> Result<(), AllocError>
    ensures { OnOk result (out.new.items ≡ out.old.items ++ table_text rules.now table.now) }
{
    for row in table {
        push_row(out, rules, row)?;
    }
    Ok(())
}

/// The report on what the strategy gave by these rules: the texts of its verdicts in order, and then a line for each
/// function.
///
/// The only error is want of memory.
pub(crate) fn print_optimised(
    alloc: Global,
    rules: &[Rule],
    done: &Done,
) -> Result<Vec<u8>, AllocError>
    ensures { IfOk result (λ text. text.items ≡ optimised_report rules.now done.now.table done.now.module done.now.counts done.now.limited) }
{
    let mut out = Vec::new(alloc);
    push_table(&mut out, rules, done.table.as_slice())?;
    let lines = print_report(
        alloc,
        &done.module,
        done.counts.as_slice(),
        done.limited.as_slice(),
    )?;
    out.extend_from_slice(lines.as_slice())?;
    Ok(out)
}
