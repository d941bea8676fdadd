//! Scalars and keys at the front of a text.

ghost use Rattle.std.specs.Prelude.{◌≡◌, ℕ, List, option_map, option_and_then, IfOk};
ghost use Rattle.doc_tree.specs.Shape.{shape};
ghost use Rattle.yaml_read.specs.Keys.{or_unfit, quoted_value, begins_other, scalar, ends_value, behind_colon, key};
ghost use Rattle.yaml_read.specs.Quoted.{quoted};
ghost use Rattle.yaml_read.specs.Seen.{Gives};

use crate::quoted::{begins_quoted, quoted};
use crate::stop::{Stop, Why};
use base_model::Str;
use doc_tree::Tree;
use std::alloc::{AllocError, Global};
use yaml_plain::{
    Style, at_gap, begins, begins_plain, copied, plain_split, plain_value, tail, trim_end,
};

/// Whether an anchor, an alias, a tag, a block scalar or a long key begins here.
#[tactic(auto, unfolding(crate::specs::Keys::begins_other))]
pub fn begins_other(text: &[u8]) -> bool
    ensures { result ≡ begins_other text.now }
{
    match text {
        [b'&' | b'*' | b'!' | b'|' | b'>', ..] => true,
        [b'?', b' ', ..] => true,
        _ => false,
    }
}

fn quoted_scalar(alloc: Global, text: &[u8]) -> Result<(Tree, &[u8]), Stop>
    ensures { Gives (λ x. (shape x.0, x.1.now)) result (or_unfit (option_map quoted_value (quoted text.now))) }
{
    match quoted(alloc, text)? {
        Some((scalar, behind)) => Ok((Tree::Text(scalar), behind)),
        None => Err(Stop::Because(Why::Unfit)),
    }
}

/// A scalar as a value, and the text behind it.
#[tactic(auto, unfolding(crate::specs::Keys::scalar))]
pub fn scalar(alloc: Global, style: Style, text: &[u8]) -> Result<(Tree, &[u8]), Stop>
    ensures { Gives (λ x. (shape x.0, x.1.now)) result (scalar style text.now) }
{
    if begins_quoted(text) {
        return quoted_scalar(alloc, text);
    }
    if !begins_plain(style, text) {
        return Err(Stop::Because(Why::Unfit));
    }
    let (plain, behind) = plain_split(style, text);
    Ok((plain_value(alloc, trim_end(plain))?, behind))
}

// Whether this may follow a key's colon.
fn ends_value(style: Style, text: &[u8]) -> bool
    ensures { result ≡ ends_value style text.now }
{
    at_gap(text) || (style.is_flow() && (begins(b',', text) || begins(b'}', text)))
}

// The text behind a key's colon, if a colon stands there.
fn behind_colon(style: Style, text: &[u8]) -> Option<&[u8]>
    ensures { (k : List ℕ) → option_map (λ p. (k, p.now)) result ≡ behind_colon style (k, text.now) }
{
    match text {
        [b':', behind @ ..] if ends_value(style, behind) => Some(behind),
        _ => None,
    }
}

fn quoted_key(alloc: Global, style: Style, text: &[u8]) -> Result<Option<(Str, &[u8])>, AllocError>
    ensures { IfOk result (λ r. option_map (λ p. (p.0, p.1.now)) r ≡ option_and_then (behind_colon style) (quoted text.now)) }
{
    let Some((name, behind)) = quoted(alloc, text)? else {
        return Ok(None);
    };
    match behind_colon(style, behind) {
        Some(behind) => Ok(Some((name, behind))),
        None => Ok(None),
    }
}

/// A key with its colon, if one stands there, and the text behind the colon.
#[tactic(auto, unfolding(crate::specs::Keys::key))]
pub fn key(alloc: Global, style: Style, text: &[u8]) -> Result<Option<(Str, &[u8])>, AllocError>
    ensures { IfOk result (λ r. option_map (λ p. (p.0, p.1.now)) r ≡ key style text.now) }
{
    if begins_quoted(text) {
        return quoted_key(alloc, style, text);
    }
    if !begins_plain(style, text) {
        return Ok(None);
    }
    let (plain, behind) = plain_split(style, text);
    match behind_colon(style, behind) {
        Some(behind) => Ok(Some((copied(alloc, trim_end(plain))?, behind))),
        None => Ok(None),
    }
}
