//! Where a node of flow ends, found with the open brackets in hand, so that no nesting is too deep for the stack.

ghost use Rattle.std.specs.Prelude.{◌≡◌, ◌∷◌, [], reverse, ◌||◌, IfOk, IfSome, IfNone};
ghost use Rattle.yaml_plain.specs.Bytes.{comma, right_brace, begins};
ghost use Rattle.yaml_read.specs.Flow.{flow};
ghost use Rattle.yaml_read.specs.declared.brackets.Bracket.TheVariants.{InList, InMap};
ghost use Rattle.yaml_read.specs.Brackets.{end_of, closing, without_levels, behind, inside, from_node, from_value, GoesOn};
ghost use Rattle.yaml_read.specs.Seen.{Gives};

use crate::entries::Entries;
use crate::flow::{begins_node, behind_entry, next_key};
use crate::keys::{begins_other, scalar};
use crate::stop::{Repeats, Stop, Why};
use doc_tree::{MAX_BYTES, Tree};
use std::alloc::{AllocError, Global};
use yaml_plain::{Style, begins, skip_spaces, tail};

/// A bracket that is open: the levels and the turns that are left in it, and of a map the pairs so far, without their values.
pub enum Bracket {
    InList(usize, usize),
    InMap(usize, usize, Entries),
}

// By hand, so that a proof sees one call where one is dropped, and not a case for each kind.
impl Drop for Bracket {
    fn drop(self) {
        match self {
            Bracket::InList(_, _) | Bracket::InMap(_, _, _) => {}
        }
    }
}

fn closing(bracket: &Bracket) -> u8
    ensures { result ≡ closing bracket.now }
{
    match bracket {
        Bracket::InList(_, _) => b']',
        Bracket::InMap(_, _, _) => b'}',
    }
}

// The innermost bracket, and those round it.
fn innermost(stack: Vec<Bracket>) -> Option<(Bracket, Vec<Bracket>)>
    ensures some { IfSome result (λ p. reverse stack.items ≡ p.0 ∷ reverse p.1.items) }
    ensures none { IfNone result (reverse stack.items ≡ []) }
{
    let mut round = stack;
    let bracket = round.pop()?;
    Some((bracket, round))
}

// The brackets with one more in them.
fn opened(stack: Vec<Bracket>, bracket: Bracket) -> Result<Vec<Bracket>, AllocError>
    ensures { IfOk result (λ v. reverse v.items ≡ bracket ∷ reverse stack.items) }
{
    let mut more = stack;
    more.push(bracket)?;
    Ok(more)
}

fn without_levels(text: &[u8]) -> Why
    ensures { result ≡ without_levels text.now }
{
    if begins_node(text) {
        Why::Deep
    } else {
        Why::Unfit
    }
}

// Goes on behind a node, up to where the next entry of the innermost bracket may begin.
fn behind<'a>(
    alloc: Global,
    repeats: Repeats,
    stack: Vec<Bracket>,
    text: &'a [u8],
) -> Result<(Vec<Bracket>, &'a [u8]), Stop>
    ensures { GoesOn (λ x. inside repeats (reverse x.0.items) x.1.now) result (behind repeats (reverse stack.items) text.now) }
{
    let Some((bracket, round)) = innermost(stack) else {
        return Ok((Vec::new(alloc), text));
    };
    let rest = behind_entry(closing(&bracket), text)?;
    Ok((opened(round, bracket)?, rest))
}

// Goes on with the node that begins here.
fn node<'a>(
    alloc: Global,
    repeats: Repeats,
    levels: usize,
    stack: Vec<Bracket>,
    text: &'a [u8],
) -> Result<(Vec<Bracket>, &'a [u8]), Stop>
    ensures { GoesOn (λ x. inside repeats (reverse x.0.items) x.1.now) result (from_node repeats levels (reverse stack.items) text.now) }
{
    if begins_other(text) {
        return Err(Stop::Because(Why::Outside));
    }
    if levels == 0 {
        return Err(Stop::Because(without_levels(text)));
    }
    if begins(b'[', text) {
        let more = opened(stack, Bracket::InList(levels - 1, MAX_BYTES))?;
        return Ok((more, tail(text)));
    }
    if begins(b'{', text) {
        let bracket = Bracket::InMap(levels - 1, MAX_BYTES, Entries::new(alloc));
        let more = opened(stack, bracket)?;
        return Ok((more, tail(text)));
    }
    let (_, rest) = scalar(alloc, Style::Flow, text)?;
    behind(alloc, repeats, stack, rest)
}

fn has_no_value(text: &[u8]) -> bool
    ensures { result ≡ (begins comma text.now || begins right_brace text.now) }
{
    begins(b',', text) || begins(b'}', text)
}

// Goes on with the value of a pair, from what follows the colon.
fn value<'a>(
    alloc: Global,
    repeats: Repeats,
    levels: usize,
    stack: Vec<Bracket>,
    text: &'a [u8],
) -> Result<(Vec<Bracket>, &'a [u8]), Stop>
    ensures { GoesOn (λ x. inside repeats (reverse x.0.items) x.1.now) result (from_value repeats levels (reverse stack.items) text.now) }
{
    if levels == 0 {
        return Err(Stop::Because(Why::Deep));
    }
    let at = skip_spaces(text);
    if has_no_value(at) {
        return behind(alloc, repeats, stack, at);
    }
    node(alloc, repeats, levels, stack, at)
}

// Goes on inside a list, with so many turns left, that these brackets are round.
fn list_turn<'a>(
    alloc: Global,
    repeats: Repeats,
    levels: usize,
    turns: usize,
    stack: Vec<Bracket>,
    text: &'a [u8],
) -> Result<(Vec<Bracket>, &'a [u8]), Stop>
    ensures { GoesOn (λ x. inside repeats (reverse x.0.items) x.1.now) result (inside repeats (InList levels turns ∷ reverse stack.items) text.now) }
{
    if turns == 0 {
        return Err(Stop::Because(Why::Unfit));
    }
    let at = skip_spaces(text);
    if begins(b']', at) {
        return behind(alloc, repeats, stack, tail(at));
    }
    let more = opened(stack, Bracket::InList(levels, turns - 1))?;
    node(alloc, repeats, levels, more, at)
}

// The same inside a map behind these pairs.
fn map_turn<'a>(
    alloc: Global,
    repeats: Repeats,
    levels: usize,
    turns: usize,
    entries: Entries,
    stack: Vec<Bracket>,
    text: &'a [u8],
) -> Result<(Vec<Bracket>, &'a [u8]), Stop>
    ensures { GoesOn (λ x. inside repeats (reverse x.0.items) x.1.now) result (inside repeats (InMap levels turns entries ∷ reverse stack.items) text.now) }
{
    if turns == 0 {
        return Err(Stop::Because(Why::Unfit));
    }
    let at = skip_spaces(text);
    if begins(b'}', at) {
        return behind(alloc, repeats, stack, tail(at));
    }
    let (name, rest) = next_key(alloc, repeats, &entries, at)?;
    let longer = entries.with(name, Tree::Null)?;
    let more = opened(stack, Bracket::InMap(levels, turns - 1, longer))?;
    value(alloc, repeats, levels, more, rest)
}

impl Bracket {
    // Goes on inside this bracket, which these are round.
    fn turn<'a>(
        self,
        alloc: Global,
        repeats: Repeats,
        stack: Vec<Bracket>,
        text: &'a [u8],
    ) -> Result<(Vec<Bracket>, &'a [u8]), Stop>
        ensures { GoesOn (λ x. inside repeats (reverse x.0.items) x.1.now) result (inside repeats (self ∷ reverse stack.items) text.now) }
    {
        match self {
            Bracket::InList(levels, turns) => list_turn(alloc, repeats, levels, turns, stack, text),
            Bracket::InMap(levels, turns, entries) => {
                map_turn(alloc, repeats, levels, turns, entries, stack, text)
            }
        }
    }
}

/// The text behind the node of flow that begins here, of at most so many levels.
///
/// Each turn takes a byte at least, so there are no more turns than bytes; a body that took more has no better answer than
/// out of memory.
pub fn flow_end(alloc: Global, repeats: Repeats, levels: usize, text: &[u8]) -> Result<&[u8], Stop>
    ensures { Gives (λ x. x.now) result (end_of (flow repeats levels text.now)) }
{
    let (mut stack, mut rest) = node(alloc, repeats, levels, Vec::new(alloc), text)?;
    for _turn in 0..text.len() {
        let Some((bracket, round)) = innermost(stack) else {
            return Ok(rest);
        };
        let (more, behind) = bracket.turn(alloc, repeats, round, rest)?;
        stack = more;
        rest = behind;
    }
    Err(Stop::Memory)
}
