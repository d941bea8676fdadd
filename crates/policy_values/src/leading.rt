//! Where a path leads.
ghost use Rattle.std.specs.Prelude.{◌≡◌, ◌^◌, nat_lt, option_map, map, true, Some, None, if◌then◌else◌};
ghost use Rattle.std.specs.Str.Parse.{digits_value};
ghost use Rattle.doc_tree.specs.Shape.{shape, shapes_of};
ghost use Rattle.policy_model.specs.Leading.{is_position, item_at, step_into, led};

use base_model::Str;
use doc_tree::Tree;

fn is_position(key: &str) -> bool
    ensures { result ≡ is_position key.now }
{
    key.as_bytes().iter().all(|byte| byte.is_ascii_digit())
}

// The number that decimal digits write, if it has 64 bits. No digits write 0.
fn number(key: &str) -> Option<usize>
    requires { is_position key.now ≡ true }
    ensures { result ≡ (if nat_lt (digits_value 10 key.now) (2 ^ 64) then Some (digits_value 10 key.now) else None) }
{
    if key.is_empty() {
        return Some(0);
    }
    match usize::from_str_radix(key, 10) {
        Ok(number) => Some(number),
        Err(_) => None,
    }
}

fn item<'a>(trees: &'a [Tree], position: usize) -> Option<&'a Tree>
    ensures { option_map (λ tree. shape tree.now) result ≡ item_at position (shapes_of (map shape trees.now)) }
{
    trees.get(position)
}

// The number that decimal digits write, if it is below a count.
#[tactic(auto, using(crate::proofs::Items::position_none))]
fn position(key: &str, count: usize) -> Option<usize>
    requires { is_position key.now ≡ true }
    ensures { result ≡ (if nat_lt (digits_value 10 key.now) count then Some (digits_value 10 key.now) else None) }
{
    match number(key) {
        Some(number) => { if number < count { Some(number) } else { None } }
        None => None,
    }
}

// The item at the position that decimal digits write.
#[tactic(auto, using(crate::proofs::Items::item_past))]
fn item_at<'a>(key: &str, trees: &'a [Tree]) -> Option<&'a Tree>
    requires { is_position key.now ≡ true }
    ensures { option_map (λ tree. shape tree.now) result ≡ item_at (digits_value 10 key.now) (shapes_of (map shape trees.now)) }
{
    match position(key, trees.len()) {
        Some(position) => item(trees, position),
        None => None,
    }
}

// One key further: in a map what stands under it, in a list the item at the position that it writes.
fn step_into<'a>(key: &str, tree: &'a Tree) -> Option<&'a Tree>
    ensures { option_map (λ found. shape found.now) result ≡ step_into key.now (shape tree.now) }
{
    match tree {
        Tree::Map(_) => tree.get(key),
        Tree::List(trees) => {
            if is_position(key) {
                item_at(key, trees)
            } else {
                None
            }
        }
        _ => None,
    }
}

/// The tree to which the keys lead.
pub(crate) fn led<'a>(keys: &[Str], tree: &'a Tree) -> Option<&'a Tree>
    ensures { option_map (λ found. shape found.now) result ≡ led keys.now (shape tree.now) }
{
    let mut at = tree;
    for key in keys {
        match step_into(key.as_str(), at) {
            Some(next) => at = next,
            None => return None,
        }
    }
    Some(at)
}
