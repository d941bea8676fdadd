//! What a value may be: strings, numbers, booleans and names.
ghost use Rattle.std.specs.Prelude.{◌≡◌, Bool, true, IfOk, IfSome};
ghost use Rattle.net_model.specs.Options.{is_within};
ghost use Rattle.doc_tree.specs.Shape.{shape};
ghost use Rattle.std.specs.Option.{option_map_or};
ghost use Rattle.std.specs.Prelude.{ok_or, List, ℕ, Option};
ghost use Rattle.std.specs.Fmt.{signed_decimal};
ghost use Rattle.tree_schema.specs.Values.{is_null, integer, in_range, number, from_minus_one, unless_minus_one, boolean, name, name_from, formed, formed_or, unless_empty};
ghost use Rattle.tree_schema.specs.declared.fault.Reason.TheVariants.{OutOfRange};

use crate::Reason;
use doc_tree::Tree;
use itoa::Buffer;
use net_model::Name;
use net_text::read_bool;
use yaml_plain::integer_of;

pub fn is_null(tree: &Tree) -> bool
    ensures { result ≡ is_null (shape tree.now) }
{
    match tree {
        Tree::Null => true,
        _ => false,
    }
}

/// A boolean, or its word.
pub fn boolean(tree: &Tree) -> Result<bool, Reason>
    ensures { result ≡ boolean (shape tree.now) }
{
    match tree {
        Tree::Bool(b) => Ok(*b),
        Tree::Text(text) => read_bool(text.as_str()).ok_or(Reason::OutOfRange),
        _ => Err(Reason::WrongType),
    }
}

fn integer(tree: &Tree) -> Result<i128, Reason>
    ensures { result ≡ integer (shape tree.now) }
{
    match tree {
        Tree::Int(n) => Ok(*n),
        Tree::Text(text) => integer_of(text.as_str()).ok_or(Reason::OutOfRange),
        _ => Err(Reason::WrongType),
    }
}

fn in_range(least: u32, most: u32, n: i128) -> Result<u32, Reason>
    ensures value { result ≡ in_range least most n }
    ensures within { IfOk result (λ n. is_within least most n ≡ true) }
{
    if n >= least as i128 && n <= most as i128 {
        Ok(n as u32)
    } else {
        Err(Reason::OutOfRange)
    }
}

/// An integer in a range, or a string that YAML would read as one if it weren't quoted.
pub fn number(least: u32, most: u32, tree: &Tree) -> Result<u32, Reason>
    ensures value { result ≡ number least most (shape tree.now) }
    ensures within { IfOk result (λ n. is_within least most n ≡ true) }
{
    in_range(least, most, integer(tree)?)
}

fn from_minus_one(n: i128) -> Result<Option<u32>, Reason>
    ensures { result ≡ from_minus_one n }
{
    if n == -1 {
        return Ok(None);
    }
    Ok(Some(in_range(0, u32::MAX, n)?))
}

/// A number of 32 bits; nothing for -1, which counts as left out.
pub fn unless_minus_one(tree: &Tree) -> Result<Option<u32>, Reason>
    ensures { result ≡ unless_minus_one (shape tree.now) }
{
    from_minus_one(integer(tree)?)
}

/// A form that a string may have.
pub trait Form {
    type Value;

    /// What a string of the form stands for.
    ghost form: { Self → List ℕ → Option Self.Value };

    /// What holds of each value.
    ghost holds: { Self → Self.Value → Bool };

    fn read(&self, text: &str) -> Option<Self::Value>
        ensures read { result ≡ form self.now text.now }
        ensures right { IfSome result (λ value. holds self.now value ≡ true) };
}

fn formed_string<F: Form>(form: &F, other: Reason, text: &str) -> Result<F::Value, Reason>
    ensures read { result ≡ ok_or (F.form form.now text.now) other }
    ensures right { IfOk result (λ value. F.holds form.now value ≡ true) }
{
    match form.read(text) {
        Some(value) => Ok(value),
        None => Err(other),
    }
}

fn formed_integer<F: Form>(form: &F, other: Reason, n: i128) -> Result<F::Value, Reason>
    ensures read { result ≡ ok_or (F.form form.now (signed_decimal n)) other }
    ensures right { IfOk result (λ value. F.holds form.now value ≡ true) }
{
    let mut buffer = Buffer::new();
    formed_string(form, other, buffer.format(n))
}

/// What a string of the form stands for; any other string is refused for this reason. An integer stands for its decimal
/// digits, a boolean for its word.
pub fn formed_or<F: Form>(form: &F, other: Reason, tree: &Tree) -> Result<F::Value, Reason>
    ensures read { result ≡ formed_or other (F.form form.now) (shape tree.now) }
    ensures right { IfOk result (λ value. F.holds form.now value ≡ true) }
{
    match tree {
        Tree::Text(text) => formed_string(form, other, text.as_str()),
        Tree::Int(n) => formed_integer(form, other, *n),
        Tree::Bool(true) => formed_string(form, other, "true"),
        Tree::Bool(false) => formed_string(form, other, "false"),
        _ => Err(Reason::WrongType),
    }
}

/// What a string of the form stands for; any other string is out of range.
pub fn formed<F: Form>(form: &F, tree: &Tree) -> Result<F::Value, Reason>
    ensures read { result ≡ formed (F.form form.now) (shape tree.now) }
    ensures right { IfOk result (λ value. F.holds form.now value ≡ true) }
{
    formed_or(form, Reason::OutOfRange, tree)
}

/// What a string of the form stands for; nothing for an empty string, which counts as left out.
pub fn unless_empty<F: Form>(form: &F, tree: &Tree) -> Result<Option<F::Value>, Reason>
    ensures read { result ≡ unless_empty (formed (F.form form.now)) (shape tree.now) }
    ensures right { IfOk result (λ value. option_map_or (F.holds form.now) value true ≡ true) }
{
    match tree {
        Tree::Text(text) if text.as_str().is_empty() => Ok(None),
        _ => Ok(Some(formed(form, tree)?)),
    }
}

/// The names of links.
pub struct Names;

impl Form for Names {
    type Value = Name;

    ghost form = { λ _. name_from };

    ghost holds = { λ _ _. true };

    fn read(&self, text: &str) -> Option<Name> {
        Name::of(text.as_bytes())
    }
}

/// The name of a link.
pub fn name(tree: &Tree) -> Result<Name, Reason>
    ensures { result ≡ name (shape tree.now) }
{
    formed(&Names, tree)
}
