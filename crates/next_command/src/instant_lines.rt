//! The lines of instants.
ghost use Rattle.std.specs.Prelude.{◌≡◌, ◌≤◌, ◌++◌, OnOk};
ghost use Rattle.std.specs.List.{All};
ghost use Rattle.plain_words.specs.Moments.{last_moment};
ghost use Rattle.expressions.specs.CivilSeconds.{IsCivilSecond};
ghost use Rattle.next_command.specs.Lines.{utc_text};
ghost use Rattle.next_command.specs.Adding.{AddsLine, AddsLines};

use civil_time::civil_at;
use expr_grammar::print_expr;
use expressions::{Civil, Expr};
use std::alloc::{AllocError, Global};

/// Where the civil second begins in the spelling of an `at`, behind `at(`.
const CIVIL_BEGINS: usize = 3;

/// Where it ends, before the last bracket.
const CIVIL_ENDS: usize = 22;

/// Appends a civil second as it is read in UTC.
fn put_utc(text: &mut Vec<u8>, alloc: Global, civil: Civil) -> Result<(), AllocError>
    requires { IsCivilSecond civil }
    ensures { OnOk result (text.new.items ≡ text.old.items ++ utc_text civil) }
{
    let at = print_expr(alloc, &Expr::At(civil))?;
    text.extend_from_slice(&at[CIVIL_BEGINS..CIVIL_ENDS])?;
    text.push(b'Z')?;
    Ok(())
}

/// Appends the line of an instant.
fn put_line(text: &mut Vec<u8>, alloc: Global, instant: u64) -> Result<(), AllocError>
    requires { instant ≤ last_moment }
    ensures { OnOk result (AddsLine instant text.old.items text.new.items) }
{
    put_utc(text, alloc, civil_at(instant))?;
    text.push(b'\n')?;
    Ok(())
}

/// Appends the lines of instants.
pub(crate) fn put_lines(
    text: &mut Vec<u8>,
    alloc: Global,
    instants: &[u64],
) -> Result<(), AllocError>
    requires { All (λ instant. instant ≤ last_moment) instants.now }
    ensures { OnOk result (AddsLines instants.now text.old.items text.new.items) }
{
    'lines: for instant in instants {
        put_line(text, alloc, *instant)?;
    }
    Ok(())
}
