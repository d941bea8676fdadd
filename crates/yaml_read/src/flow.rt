//! Flow lists and flow maps.

ghost use Rattle.std.specs.Prelude.{◌≡◌, ◌&&◌, false, [], map};
ghost use Rattle.yaml_read.specs.Keys.{is_among};
ghost use Rattle.doc_tree.specs.Shape.{shape, pair_shape};
ghost use Rattle.yaml_read.specs.Flow.{are_refused, behind_entry, begins_node, next_key, flow_items, flow_value, flow_pairs, flow};
ghost use Rattle.yaml_read.specs.Seen.{Gives};

use crate::entries::Entries;
use crate::keys::{begins_other, key, scalar};
use crate::quoted::begins_quoted;
use crate::stop::{Repeats, Stop, Why};
use base_model::Str;
use doc_tree::{MAX_BYTES, Tree};
use std::alloc::Global;
use yaml_plain::{Style, begins, begins_plain, skip_spaces, tail};

/// The text behind an entry: behind a comma, or from the closing sign on.
#[tactic(auto, unfolding(crate::specs::Flow::behind_entry))]
pub fn behind_entry(closing: u8, text: &[u8]) -> Result<&[u8], Stop>
    ensures { Gives (λ x. x.now) result (behind_entry closing text.now) }
{
    let rest = skip_spaces(text);
    if begins(b',', rest) {
        return Ok(tail(rest));
    }
    if begins(closing, rest) {
        return Ok(rest);
    }
    Err(Stop::Because(Why::Unfit))
}

/// Whether a list, a map or a scalar begins here.
pub fn begins_node(text: &[u8]) -> bool
    ensures { result ≡ begins_node text.now }
{
    begins(b'[', text)
        || begins(b'{', text)
        || begins_quoted(text)
        || begins_plain(Style::Flow, text)
}

fn is_refused(repeats: Repeats, name: &Str, entries: &Entries) -> bool
    ensures { result ≡ (are_refused repeats && is_among name.now (map (λ p. p.0) entries.now)) }
{
    match repeats {
        Repeats::Refused => entries.has(name),
        Repeats::Taken => false,
    }
}

/// The key of the next pair, and the text behind its colon.
#[tactic(auto, unfolding(crate::specs::Flow::next_key))]
pub fn next_key<'a>(
    alloc: Global,
    repeats: Repeats,
    entries: &Entries,
    text: &'a [u8],
) -> Result<(Str, &'a [u8]), Stop>
    ensures { Gives (λ x. (x.0, x.1.now)) result (next_key repeats (map (λ p. p.0) entries.now) text.now) }
{
    if begins_other(text) {
        return Err(Stop::Because(Why::Outside));
    }
    let Some((name, behind)) = key(alloc, Style::Flow, text)? else {
        return Err(Stop::Because(Why::Unfit));
    };
    if is_refused(repeats, &name, entries) {
        return Err(Stop::Because(Why::Repeated));
    }
    Ok((name, behind))
}

// The rest of a list, of fewer items than turns.
#[cycle(flow)]
fn flow_items<'a>(
    alloc: Global,
    repeats: Repeats,
    levels: usize,
    turns: usize,
    text: &'a [u8],
) -> Result<(Vec<Tree>, &'a [u8]), Stop>
    ensures { Gives (λ x. (map shape x.0.items, x.1.now)) result (flow_items repeats levels (flow repeats levels) turns text.now) }
{
    let mut items: Vec<Tree> = Vec::new(alloc);
    let mut rest = text;
    for _turn in 0..turns {
        let at = skip_spaces(rest);
        if begins(b']', at) {
            return Ok((items, tail(at)));
        }
        let (item, behind) = flow(alloc, repeats, levels, at)?;
        let behind = behind_entry(b']', behind)?;
        items.push(item)?;
        rest = behind;
    }
    Err(Stop::Because(Why::Unfit))
}

// The value of a pair, and the text behind it, from what follows the colon.
#[cycle(flow)]
#[tactic(auto, unfolding(crate::specs::Flow::flow_value))]
fn flow_value<'a>(
    alloc: Global,
    repeats: Repeats,
    levels: usize,
    text: &'a [u8],
) -> Result<(Tree, &'a [u8]), Stop>
    ensures { Gives (λ x. (shape x.0, x.1.now)) result (flow_value repeats levels (flow repeats levels) text.now) }
{
    if levels == 0 {
        return Err(Stop::Because(Why::Deep));
    }
    let at = skip_spaces(text);
    if begins(b',', at) || begins(b'}', at) {
        return Ok((Tree::Null, at));
    }
    flow(alloc, repeats, levels, at)
}

// The rest of a map, of fewer pairs than turns.
#[cycle(flow)]
fn flow_pairs<'a>(
    alloc: Global,
    repeats: Repeats,
    levels: usize,
    turns: usize,
    text: &'a [u8],
) -> Result<(Vec<(Str, Tree)>, &'a [u8]), Stop>
    ensures { Gives (λ x. (map pair_shape x.0.items, x.1.now)) result (flow_pairs repeats levels (flow repeats levels) turns [] text.now) }
{
    let mut entries = Entries::new(alloc);
    let mut rest = text;
    for _turn in 0..turns {
        let at = skip_spaces(rest);
        if begins(b'}', at) {
            return Ok((entries.into_pairs(), tail(at)));
        }
        let (name, behind) = next_key(alloc, repeats, &entries, at)?;
        let (value, behind) = flow_value(alloc, repeats, levels, behind)?;
        let behind = behind_entry(b'}', behind)?;
        let longer = entries.with(name, value)?;
        entries = longer;
        rest = behind;
    }
    Err(Stop::Because(Why::Unfit))
}

/// A node of flow, of at most so many levels, and the text behind it.
#[cycle(flow)]
pub fn flow<'a>(
    alloc: Global,
    repeats: Repeats,
    levels: usize,
    text: &'a [u8],
) -> Result<(Tree, &'a [u8]), Stop>
    ensures { Gives (λ x. (shape x.0, x.1.now)) result (flow repeats levels text.now) }
{
    if begins_other(text) {
        return Err(Stop::Because(Why::Outside));
    }
    if levels == 0 {
        return Err(Stop::Because(if begins_node(text) {
            Why::Deep
        } else {
            Why::Unfit
        }));
    }
    if begins(b'[', text) {
        let (items, rest) = flow_items(alloc, repeats, levels - 1, MAX_BYTES, tail(text))?;
        return Ok((Tree::List(items), rest));
    }
    if begins(b'{', text) {
        let (pairs, rest) = flow_pairs(alloc, repeats, levels - 1, MAX_BYTES, tail(text))?;
        return Ok((Tree::Map(pairs), rest));
    }
    scalar(alloc, Style::Flow, text)
}
