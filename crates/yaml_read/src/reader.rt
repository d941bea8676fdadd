//! Rows as trees.

ghost use Rattle.std.specs.Prelude.{◌≡◌, [], map, option_map, IfOk};
ghost use Rattle.doc_tree.specs.Shape.{shape, pair_shape};
ghost use Rattle.yaml_read.specs.OnLine.{entry_on_line};
ghost use Rattle.yaml_read.specs.Reading.{at_row, is_own, own_key, own_dash, begins_deeper, begins_below_key, first_pair, first_item, value_of, pairs, items, some_pairs, some_items, node, document};
ghost use Rattle.yaml_read.specs.Seen.{seen, all_seen, Answers};

use crate::entries::Entries;
use crate::fault::YamlFault;
use crate::faults::fault_of;
use crate::keys::key;
use crate::line::entry_on_line;
use crate::outside::is_outside;
use crate::rows::{Row, is_dash};
use crate::stop::{Stop, Why};
use base_model::Str;
use doc_tree::{MAX_LEVELS, Tree};
use std::alloc::{AllocError, Global};
use yaml_plain::{Style, tail};

fn is_own(column: usize, row: &Row) -> bool
    ensures { result ≡ is_own column (seen row.now) }
{
    row.column == column && !is_outside(row)
}

// Whether a row continues a sequence at this column.
#[tactic(auto, unfolding(crate::specs::Reading::own_dash))]
fn own_dash(column: usize, row: &Row) -> bool
    ensures { result ≡ own_dash column (seen row.now) }
{
    is_own(column, row) && is_dash(&row.text)
}

// The key of a row that continues a map at this column, and what follows its colon.
#[tactic(auto, unfolding(crate::specs::Reading::own_key))]
fn own_key(alloc: Global, column: usize, row: &Row) -> Result<Option<(Str, &[u8])>, AllocError>
    ensures { IfOk result (λ r. option_map (λ p. (p.0, p.1.now)) r ≡ own_key column (seen row.now)) }
{
    if is_own(column, row) {
        key(alloc, Style::Block, &row.text)
    } else {
        Ok(None)
    }
}

fn begins_deeper(column: usize, rows: &[Row]) -> bool
    ensures { result ≡ begins_deeper column (all_seen rows.now) }
{
    match rows {
        [] => false,
        [first, ..] => first.column > column,
    }
}

fn begins_below_key(column: usize, rows: &[Row]) -> bool
    ensures { result ≡ begins_below_key column (all_seen rows.now) }
{
    match rows {
        [] => false,
        [first, ..] => first.column > column || own_dash(column, first),
    }
}

// The key of the first row, what follows it, that row and those behind it, if it continues a map.
fn first_pair<'a>(
    alloc: Global,
    column: usize,
    rows: &'a [Row],
) -> Result<Option<(Str, &'a [u8], &'a Row, &'a [Row])>, AllocError>
    ensures { IfOk result (λ r. option_map (λ x. ((x.0, x.1.now), seen x.2.now, all_seen x.3.now)) r ≡ first_pair column (all_seen rows.now)) }
{
    let [first, below @ ..] = rows else {
        return Ok(None);
    };
    match own_key(alloc, column, first)? {
        Some((name, behind)) => Ok(Some((name, behind, first, below))),
        None => Ok(None),
    }
}

// The first row and those behind it, if it continues a sequence.
fn first_item(column: usize, rows: &[Row]) -> Option<(&Row, &[Row])>
    ensures { option_map (λ x. (seen x.0.now, all_seen x.1.now)) result ≡ first_item column (all_seen rows.now) }
{
    match rows {
        [first, below @ ..] if own_dash(column, first) => Some((first, below)),
        _ => None,
    }
}

// The value that stands on a row, behind its colon or dash.
fn value_on_row(
    alloc: Global,
    levels: usize,
    row: &Row,
    text: &[u8],
) -> Result<Option<Tree>, YamlFault>
    ensures { Answers (option_map shape) result (at_row (seen row.now) (entry_on_line levels text.now)) }
{
    match entry_on_line(alloc, levels, text) {
        Ok(found) => Ok(found),
        Err(Stop::Memory) => Err(YamlFault::OutOfMemory),
        Err(Stop::Because(why)) => Err(fault_of(alloc, why, row)),
    }
}

// The value of a row, on it or below it. It follows where the rows behind may be those of the value.
#[cycle(reader)]
#[tactic(auto, unfolding(crate::specs::Reading::value_of))]
fn value_of<'a>(
    alloc: Global,
    levels: usize,
    row: &Row,
    text: &[u8],
    follows: bool,
    below: &'a [Row],
) -> Result<(Tree, &'a [Row]), YamlFault>
    ensures { Answers (λ x. (shape x.0, all_seen x.1.now)) result (value_of levels (node levels) (seen row.now) text.now follows (all_seen below.now)) }
{
    if let Some(tree) = value_on_row(alloc, levels, row, text)? {
        return Ok((tree, below));
    }
    if follows {
        node(alloc, levels, below)
    } else {
        Ok((Tree::Null, below))
    }
}

// The pairs of a map at this column, and the rows behind it.
#[cycle(reader)]
fn pairs<'a>(
    alloc: Global,
    levels: usize,
    turns: usize,
    column: usize,
    rows: &'a [Row],
) -> Result<(Vec<(Str, Tree)>, &'a [Row]), YamlFault>
    ensures { Answers (λ x. (map pair_shape x.0.items, all_seen x.1.now)) result (pairs levels (node levels) turns column [] (all_seen rows.now)) }
{
    let mut entries = Entries::new(alloc);
    let mut rest = rows;
    for _turn in 0..turns {
        let Some((name, text, row, below)) = first_pair(alloc, column, rest)? else {
            return Ok((entries.into_pairs(), rest));
        };
        if entries.has(&name) {
            return Err(fault_of(alloc, Why::Repeated, row));
        }
        let follows = begins_below_key(column, below);
        let (tree, after) = value_of(alloc, levels, row, text, follows, below)?;
        let longer = entries.with(name, tree)?;
        entries = longer;
        rest = after;
    }
    Ok((entries.into_pairs(), rest))
}

// The items of a sequence at this column, and the rows behind it.
#[cycle(reader)]
fn items<'a>(
    alloc: Global,
    levels: usize,
    turns: usize,
    column: usize,
    rows: &'a [Row],
) -> Result<(Vec<Tree>, &'a [Row]), YamlFault>
    ensures { Answers (λ x. (map shape x.0.items, all_seen x.1.now)) result (items levels (node levels) turns column (all_seen rows.now)) }
{
    let mut items: Vec<Tree> = Vec::new(alloc);
    let mut rest = rows;
    for _turn in 0..turns {
        let Some((row, below)) = first_item(column, rest) else {
            return Ok((items, rest));
        };
        let follows = begins_deeper(column, below);
        let (tree, after) = value_of(alloc, levels, row, tail(&row.text), follows, below)?;
        items.push(tree)?;
        rest = after;
    }
    Ok((items, rest))
}

fn some_pairs<'a>(
    alloc: Global,
    row: &Row,
    pairs: Vec<(Str, Tree)>,
    rest: &'a [Row],
) -> Result<(Tree, &'a [Row]), YamlFault>
    ensures { Answers (λ x. (shape x.0, all_seen x.1.now)) result (some_pairs (seen row.now) (map pair_shape pairs.items) (all_seen rest.now)) }
{
    if pairs.is_empty() {
        return Err(fault_of(alloc, Why::Unfit, row));
    }
    Ok((Tree::Map(pairs), rest))
}

fn some_items<'a>(
    alloc: Global,
    row: &Row,
    items: Vec<Tree>,
    rest: &'a [Row],
) -> Result<(Tree, &'a [Row]), YamlFault>
    ensures { Answers (λ x. (shape x.0, all_seen x.1.now)) result (some_items (seen row.now) (map shape items.items) (all_seen rest.now)) }
{
    if items.is_empty() {
        return Err(fault_of(alloc, Why::Unfit, row));
    }
    Ok((Tree::List(items), rest))
}

// The node, of at most so many levels, that begins with the first row, and the rows behind it.
#[cycle(reader)]
fn node<'a>(alloc: Global, levels: usize, rows: &'a [Row]) -> Result<(Tree, &'a [Row]), YamlFault>
    ensures { Answers (λ x. (shape x.0, all_seen x.1.now)) result (node levels (all_seen rows.now)) }
{
    let [first, ..] = rows else {
        return Ok((Tree::Null, rows));
    };
    if levels == 0 {
        return Err(fault_of(alloc, Why::Deep, first));
    }
    let turns = rows.len() + 1;
    if is_dash(&first.text) {
        let (items, rest) = items(alloc, levels - 1, turns, first.column, rows)?;
        return some_items(alloc, first, items, rest);
    }
    let (pairs, rest) = pairs(alloc, levels - 1, turns, first.column, rows)?;
    some_pairs(alloc, first, pairs, rest)
}

/// What rows stand for.
#[tactic(auto, unfolding(crate::specs::Reading::document))]
pub fn document(alloc: Global, rows: &[Row]) -> Result<Tree, YamlFault>
    ensures { Answers shape result (document (all_seen rows.now)) }
{
    let (tree, rest) = node(alloc, MAX_LEVELS, rows)?;
    match rest {
        [] => Ok(tree),
        [row, ..] => Err(fault_of(alloc, Why::Unfit, row)),
    }
}
