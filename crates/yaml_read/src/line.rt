//! What stands on a line behind a key's colon or a dash.

ghost use Rattle.std.specs.Prelude.{◌≡◌, ◌||◌, option_map};
ghost use Rattle.yaml_plain.specs.Bytes.{left_bracket, left_brace, begins};
ghost use Rattle.doc_tree.specs.Shape.{shape};
ghost use Rattle.yaml_read.specs.OnLine.{is_blank, is_over, is_over_plain, value_at, on_line, entry_on_line};
ghost use Rattle.yaml_read.specs.Seen.{Gives};

use crate::flow::flow;
use crate::keys::{begins_other, scalar};
use crate::quoted::begins_quoted;
use crate::stop::{Repeats, Stop, Why};
use doc_tree::Tree;
use std::alloc::Global;
use yaml_plain::{Style, begins, skip_spaces};

/// Whether the text is spaces and a comment, or less.
#[tactic(auto, unfolding(crate::specs::OnLine::is_blank))]
pub fn is_blank(text: &[u8]) -> bool
    ensures { result ≡ is_blank text.now }
{
    let rest = skip_spaces(text);
    rest.is_empty() || begins(b'#', rest)
}

/// Whether no more than spaces, and a comment behind a space, follow a quoted or flow value.
#[tactic(auto, unfolding(crate::specs::OnLine::is_over))]
pub fn is_over(text: &[u8]) -> bool
    ensures { result ≡ is_over text.now }
{
    text.is_empty() || (begins(b' ', text) && is_blank(text))
}

fn is_over_plain(text: &[u8]) -> bool
    ensures { result ≡ is_over_plain text.now }
{
    text.is_empty() || begins(b'#', text)
}

pub fn begins_flow(text: &[u8]) -> bool
    ensures { result ≡ (begins left_bracket text.now || begins left_brace text.now) }
{
    begins(b'[', text) || begins(b'{', text)
}

// The value that begins with the first byte, behind which the line is over.
fn value_at(
    alloc: Global,
    repeats: Repeats,
    levels: usize,
    text: &[u8],
) -> Result<Option<Tree>, Stop>
    ensures { Gives (option_map shape) result (value_at repeats levels text.now) }
{
    if begins_other(text) {
        return Err(Stop::Because(Why::Outside));
    }
    if begins_flow(text) {
        let (tree, behind) = flow(alloc, repeats, levels, text)?;
        return if is_over(behind) {
            Ok(Some(tree))
        } else {
            Err(Stop::Because(Why::Unfit))
        };
    }
    let (tree, behind) = scalar(alloc, Style::Block, text)?;
    let over = if begins_quoted(text) {
        is_over(behind)
    } else {
        is_over_plain(behind)
    };
    if over {
        Ok(Some(tree))
    } else {
        Err(Stop::Because(Why::Unfit))
    }
}

/// The value on the line, of at most so many levels, if one stands there.
#[tactic(auto, unfolding(crate::specs::OnLine::on_line))]
pub fn on_line(
    alloc: Global,
    repeats: Repeats,
    levels: usize,
    text: &[u8],
) -> Result<Option<Tree>, Stop>
    ensures { Gives (option_map shape) result (on_line repeats levels text.now) }
{
    if is_blank(text) {
        return Ok(None);
    }
    value_at(alloc, repeats, levels, skip_spaces(text))
}

/// The same, where an entry may stand.
pub fn entry_on_line(alloc: Global, levels: usize, text: &[u8]) -> Result<Option<Tree>, Stop>
    ensures { Gives (option_map shape) result (entry_on_line levels text.now) }
{
    if levels == 0 {
        return Err(Stop::Because(Why::Deep));
    }
    on_line(alloc, Repeats::Refused, levels, text)
}
