//! The rows of a text: its lines that aren't blank.

ghost use Rattle.std.specs.Prelude.{◌≡◌, ◌+◌, ◌&&◌, ◌<◌, ◌^◌, ◌++◌, false, length, map, is_some, IfOk, OnOk};
ghost use Rattle.yaml_plain.specs.Bytes.{tail, leading_spaces, skip_spaces};
ghost use Rattle.std.specs.Str.Lines.{lines};
ghost use Rattle.yaml_read.specs.Keys.{key};
ghost use Rattle.yaml_read.specs.Rows.{is_dash, row, lone_dash, behind_dash, begins_compact, rows_of_row, rows_of_line, rows_from, without_start};
ghost use Rattle.yaml_read.specs.Seen.{seen, all_seen};
ghost use Rattle.yaml_plain.specs.declared.style.Style.TheVariants.{Block};

use crate::keys::key;
use crate::line::is_blank;
use std::alloc::{AllocError, Global};
use yaml_plain::{Style, at_gap, is_same, leading_spaces, skip_spaces, tail};

/// A line, or a part of one: the dash before a map, or the map's first pair.
pub struct Row {
    /// The number of the line, from 1.
    pub number: u64,
    /// The bytes of the line before what stands there: spaces, and for the first pair behind a dash the dash too.
    pub column: usize,
    /// What stands there.
    pub text: Vec<u8>,
    /// The whole line.
    pub line: Vec<u8>,
}

// By hand, so that a proof sees one call where one is dropped, and not a step for each part.
impl Drop for Row {
    fn drop(self) {
        let Row {
            number: _,
            column: _,
            text: _,
            line: _,
        } = self;
    }
}

/// Whether the text begins with the mark of an entry of a sequence.
pub fn is_dash(text: &[u8]) -> bool
    ensures { result ≡ is_dash text.now }
{
    match text {
        [b'-', behind @ ..] => at_gap(behind),
        _ => false,
    }
}

// The row of a line.
fn row_at(alloc: Global, number: u64, line: &[u8]) -> Result<Row, AllocError>
    ensures { IfOk result (λ r. seen r ≡ row number line.now) }
{
    Ok(Row {
        number,
        column: leading_spaces(line),
        text: Vec::from_slice(alloc, skip_spaces(line))?,
        line: Vec::from_slice(alloc, line)?,
    })
}

// Whether a map begins behind the dash of a row with this text.
fn begins_compact(alloc: Global, text: &[u8]) -> Result<bool, AllocError>
    ensures { IfOk result (λ b. b ≡ (is_dash text.now && is_some (key Block (skip_spaces (tail text.now))))) }
{
    if !is_dash(text) {
        return Ok(false);
    }
    Ok(key(alloc, Style::Block, skip_spaces(tail(text)))?.is_some())
}

// The dash of a row alone.
fn lone_dash(alloc: Global, whole: &Row) -> Result<Row, AllocError>
    ensures { IfOk result (λ r. seen r ≡ lone_dash (seen whole.now)) }
{
    Ok(Row {
        number: whole.number,
        column: whole.column,
        text: Vec::from_slice(alloc, b"-")?,
        line: Vec::from_slice(alloc, &whole.line)?,
    })
}

// The column behind the dash of a row at this column. A row's column is below its line's length.
fn column_behind(column: usize, text: &[u8]) -> Result<usize, AllocError>
    ensures { IfOk result (λ c. c ≡ (column + 1) + leading_spaces (tail text.now)) }
{
    let Some(dash) = column.checked_add(1) else {
        return Err(AllocError);
    };
    match dash.checked_add(leading_spaces(tail(text))) {
        Some(behind) => Ok(behind),
        None => Err(AllocError),
    }
}

// What follows the dash of a row.
fn behind_dash(alloc: Global, whole: &Row) -> Result<Row, AllocError>
    ensures { IfOk result (λ r. seen r ≡ behind_dash (seen whole.now)) }
{
    Ok(Row {
        number: whole.number,
        column: column_behind(whole.column, &whole.text)?,
        text: Vec::from_slice(alloc, skip_spaces(tail(&whole.text)))?,
        line: Vec::from_slice(alloc, &whole.line)?,
    })
}

// Appends the rows of a line that isn't blank.
fn push_rows(alloc: Global, rows: &mut Vec<Row>, whole: Row) -> Result<(), AllocError>
    ensures { OnOk result (all_seen rows.new.items ≡ all_seen rows.old.items ++ rows_of_row (seen whole)) }
{
    if begins_compact(alloc, &whole.text)? {
        rows.push(lone_dash(alloc, &whole)?)?;
        rows.push(behind_dash(alloc, &whole)?)?;
        return Ok(());
    }
    rows.push(whole)?;
    Ok(())
}

// Appends the rows of a line.
#[tactic(auto, unfolding(crate::specs::Rows::rows_of_line))]
fn push_line(alloc: Global, rows: &mut Vec<Row>, number: u64, line: &[u8]) -> Result<(), AllocError>
    ensures { OnOk result (all_seen rows.new.items ≡ all_seen rows.old.items ++ rows_of_line number line.now) }
{
    if is_blank(line) {
        return Ok(());
    }
    push_rows(alloc, rows, row_at(alloc, number, line)?)
}

/// The rows of the lines of a text.
pub fn rows_from(alloc: Global, text: &str) -> Result<Vec<Row>, AllocError>
    requires { length (lines text.now) < 2 ^ 63 }
    ensures { IfOk result (λ rows. all_seen rows.items ≡ rows_from 1 (lines text.now)) }
{
    let mut rows = Vec::new(alloc);
    let mut number = 1u64;
    for line in text.lines() {
        push_line(alloc, &mut rows, number, line.as_bytes())?;
        number += 1;
    }
    Ok(rows)
}

/// The rows behind the mark of a document's beginning, if the first is one.
pub fn without_start(rows: &[Row]) -> &[Row]
    ensures { all_seen result.now ≡ without_start (all_seen rows.now) }
{
    match rows {
        [first, rest @ ..] if is_same(&first.line, b"---") => rest,
        _ => rows,
    }
}
