// Follows a drawn table along the letters of an evening, and prints a record of it.
//
// The table stands in `table.txt` as decimal words with white space between, and the letters come from standard input,
// one to a line. Where there is a `keep.txt` with an expression over the table's terms, the words of a monitor over
// the table follow. A list that is no table is refused by its number. Whatever else is wrong with the input is said
// on standard error, and then nothing is printed.
#![tactic(auto)]

mod evening;
mod input;
mod record;
mod words;

use anyhow::{Context, bail};
use evening::whole_text;
use expression::Expression;
use input::{letters_of, words_of};
use std::process::ExitCode;
use std::{fs, io};
use table::Table;

// What stands in a file, which has to be there and to be text.
fn text_in(rt: &HostRuntime, name: &str) -> anyhow::Result<String> {
    fs::read_to_string(rt, name).context(format_args!("{name} cannot be read as text"))
}

// What stands on standard input.
fn evening_in(rt: &HostRuntime) -> anyhow::Result<String> {
    io::read_to_string(rt.alloc(), rt.stdin()).context("standard input cannot be read as text")
}

// The expression over the table's terms, if there is one.
fn expression_in(rt: &HostRuntime, name: &str) -> anyhow::Result<Option<Expression>> {
    if !fs::exists(rt, name)? {
        return Ok(None);
    }
    let text = text_in(rt, name)?;
    let mut expression = Expression::blank();
    if let Err(fault) = expression.read(text.as_bytes()) {
        bail!("{name}: refused {}: {fault}", fault.number());
    }
    Ok(Some(expression))
}

fn run(rt: &HostRuntime) -> anyhow::Result<()> {
    let heap = rt.alloc();
    let drawn = text_in(rt, "table.txt")?;
    let expression = expression_in(rt, "keep.txt")?;
    let evening = evening_in(rt)?;
    let words = words_of(heap, drawn.as_str())?;
    let letters = letters_of(heap, evening.as_str())?;
    let mut table = Table::blank(heap);
    if let Err(refusal) = table.read(words) {
        rt.println(refusal)?;
        return Ok(());
    }
    rt.print(whole_text(heap, table, expression, letters.as_slice())?)?;
    Ok(())
}

// An error that `main` returned would be printed once more, so it ends with a code.
fn main(rt: HostRuntime) -> ExitCode {
    let Err(fault) = run(&rt) else {
        return ExitCode::SUCCESS;
    };
    let _ = eprintln!(rt; "marks: {fault}");
    ExitCode::FAILURE
}
