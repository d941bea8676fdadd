//! What of a line lies outside the subset, whatever comes before it.

ghost use Rattle.std.specs.Prelude.{◌≡◌, ◌&&◌, ◌||◌, false, true, codes};
ghost use Rattle.yaml_plain.specs.Bytes.{hash, colon, is_empty, begins, begins_with, tail, at_gap};
ghost use Rattle.yaml_read.specs.Quoted.{begins_quoted, closed_quote};
ghost use Rattle.yaml_read.specs.Outside.{has_tab, begins_mark, byte_order_mark, is_outside, behind_quote, opens_flow, closes_flow, parts_flow, flow_is_open, value_is_open, pair_is_open, entry_is_open, entry_of, has_two_dashes};
ghost use Rattle.yaml_read.specs.Seen.{seen};

use crate::quoted::{begins_quoted, closed_quote};
use crate::rows::{Row, is_dash};
use yaml_plain::{Style, at_break, at_gap, begins, begins_plain, plain_split, skip_spaces, tail};

// Whether a tab stands among the spaces and tabs at the front.
fn has_tab(line: &[u8]) -> bool
    ensures { result ≡ has_tab line.now }
{
    let mut rest = line;
    while let [b' ', behind @ ..] = rest {
        rest = behind;
    }
    begins(b'\t', rest)
}

fn begins_mark(line: &[u8]) -> bool
    ensures { result ≡ begins_mark line.now }
{
    matches!(
        line,
        [b'-', b'-', b'-', ..] | [b'.', b'.', b'.', ..] | [b'%', ..]
    )
}

fn begins_byte_order(line: &[u8]) -> bool
    ensures { result ≡ begins_with byte_order_mark line.now }
{
    matches!(line, [0xEF, 0xBB, 0xBF, ..])
}

/// Whether the line is none of any text.
#[tactic(auto, unfolding(crate::specs::Outside::is_outside))]
pub fn is_outside(row: &Row) -> bool
    ensures { result ≡ is_outside (seen row.now) }
{
    has_tab(&row.line)
        || begins_mark(&row.line)
        || (row.number == 1 && begins_byte_order(&row.line))
}

fn opens_flow(text: &[u8]) -> bool
    ensures { result ≡ opens_flow text.now }
{
    begins(b'[', text) || begins(b'{', text)
}

fn closes_flow(text: &[u8]) -> bool
    ensures { result ≡ closes_flow text.now }
{
    begins(b']', text) || begins(b'}', text)
}

fn parts_flow(text: &[u8]) -> bool
    ensures { result ≡ parts_flow text.now }
{
    begins(b',', text) || (begins(b':', text) && at_break(Style::Flow, tail(text)))
}

fn ends_line(spaced: bool, text: &[u8]) -> bool
    ensures { result ≡ (is_empty text.now || (spaced && begins hash text.now)) }
{
    text.is_empty() || (spaced && begins(b'#', text))
}

fn can_quote(fresh: bool, text: &[u8]) -> bool
    ensures { result ≡ (fresh && begins_quoted text.now) }
{
    fresh && begins_quoted(text)
}

// Whether flow isn't closed on its line, by its signs and quotes alone, in so many turns.
fn flow_is_open(turns: usize, text: &[u8]) -> bool
    ensures { result ≡ flow_is_open turns 0 true false text.now }
{
    let mut depth = 0usize;
    let mut fresh = true;
    let mut spaced = false;
    let mut rest = text;
    for _turn in 0..turns {
        if begins(b' ', rest) {
            spaced = true;
            rest = tail(rest);
            continue;
        }
        if ends_line(spaced, rest) {
            return true;
        }
        spaced = false;
        if can_quote(fresh, rest) {
            let Some(behind) = closed_quote(rest) else {
                return true;
            };
            fresh = false;
            rest = behind;
            continue;
        }
        if opens_flow(rest) {
            depth += 1;
            fresh = true;
            rest = tail(rest);
            continue;
        }
        if !closes_flow(rest) {
            fresh = parts_flow(rest);
            rest = tail(rest);
            continue;
        }
        if depth == 0 {
            return false;
        }
        depth -= 1;
        fresh = false;
        rest = tail(rest);
    }
    true
}

fn quote_is_open(text: &[u8]) -> bool
    ensures { result ≡ behind_quote (λ rest. false) (closed_quote text.now) }
{
    closed_quote(text).is_none()
}

// Whether a quoted scalar or a flow value begins here that isn't closed on the line.
#[tactic(auto, unfolding(crate::specs::Outside::value_is_open))]
fn value_is_open(text: &[u8]) -> bool
    ensures { result ≡ value_is_open text.now }
{
    if opens_flow(text) {
        return flow_is_open(text.len(), tail(text));
    }
    begins_quoted(text) && quote_is_open(text)
}

fn is_colon(text: &[u8]) -> bool
    ensures { result ≡ (begins colon text.now && at_gap (tail text.now)) }
{
    begins(b':', text) && at_gap(tail(text))
}

// The same of the value behind a key's colon, where one comes.
#[tactic(auto, unfolding(crate::specs::Outside::pair_is_open))]
fn pair_is_open(text: &[u8]) -> bool
    ensures { result ≡ pair_is_open text.now }
{
    is_colon(text) && value_is_open(skip_spaces(tail(text)))
}

fn quoted_pair_is_open(text: &[u8]) -> bool
    ensures { result ≡ behind_quote pair_is_open (closed_quote text.now) }
{
    match closed_quote(text) {
        Some(behind) => pair_is_open(behind),
        None => true,
    }
}

/// The same where a key or a value begins.
#[tactic(auto, unfolding(crate::specs::Outside::entry_is_open))]
pub fn entry_is_open(text: &[u8]) -> bool
    ensures { result ≡ entry_is_open text.now }
{
    if begins_quoted(text) {
        return quoted_pair_is_open(text);
    }
    if begins_plain(Style::Block, text) {
        let (_, behind) = plain_split(Style::Block, text);
        return pair_is_open(behind);
    }
    value_is_open(text)
}

/// The entry of a line: what stands there, behind its dash if it has one.
#[tactic(auto, unfolding(crate::specs::Outside::entry_of))]
pub fn entry_of(line: &[u8]) -> &[u8]
    ensures { result.now ≡ entry_of line.now }
{
    let text = skip_spaces(line);
    if is_dash(text) {
        skip_spaces(tail(text))
    } else {
        text
    }
}

fn begins_item(text: &[u8]) -> bool
    ensures { result ≡ begins_with (codes "- ") text.now }
{
    matches!(text, [b'-', b' ', ..])
}

/// Whether behind the dash of a sequence another begins, with a dash and a space.
#[tactic(auto, unfolding(crate::specs::Outside::has_two_dashes))]
pub fn has_two_dashes(line: &[u8]) -> bool
    ensures { result ≡ has_two_dashes line.now }
{
    is_dash(skip_spaces(line)) && begins_item(entry_of(line))
}
