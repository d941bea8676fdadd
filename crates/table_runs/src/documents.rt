//! JSON and YAML: what reading answers, and what is printed again.
ghost use Rattle.std.specs.Prelude.{◌≡◌, ◌≤◌, true};
ghost use Rattle.doc_tree.specs.Shape.{shape, is_distinct, levels};
ghost use Rattle.doc_tree.specs.declared.limits.TheConstants.{MAX_LEVELS};

use crate::places::push_at;
use crate::trees::{push_integer, push_tree};
use base_model::OutOfMemory;
use case_table::{Text, first_word};
use doc_tree::{JsonFault, TextFault, Tree, json_of_tree, tree_of_json};
use std::alloc::Global;
use yaml_plain::{integer_of, is_plain_string};
use yaml_read::YamlFault;
use yaml_text::{tree_of_yaml, yaml_of_tree};

// What is printed of a tree: the tree on one line, JSON, YAML, or whether its YAML reads as the same tree.
#[derive(Clone, Copy)]
enum Form {
    Line,
    Json,
    Yaml,
    Again,
}

fn push_json_fault(fault: &JsonFault, out: &mut Text) {
    match fault {
        JsonFault::TooLarge => out.push_str("TooLarge"),
        JsonFault::NotJson => out.push_str("NotJson"),
        JsonFault::TooDeep => out.push_str("TooDeep"),
        JsonFault::NotWhole(path) => push_at("NotWhole", path, out),
        JsonFault::OutOfMemory => out.remember(false),
    }
}

fn push_at_number(fault: &str, number: u64, out: &mut Text) {
    out.push_str(fault);
    out.push_byte(b'(');
    out.push_count(number, ")");
}

fn push_yaml_fault(fault: YamlFault, out: &mut Text) {
    match fault {
        YamlFault::NotUtf8(at) => push_at_number("NotUtf8", at, out),
        YamlFault::Unsupported(line) => push_at_number("Unsupported", line, out),
        YamlFault::Malformed(line) => push_at_number("Malformed", line, out),
        YamlFault::DuplicateKey(line) => push_at_number("DuplicateKey", line, out),
        YamlFault::TooDeep(line) => push_at_number("TooDeep", line, out),
        YamlFault::TooLarge => out.push_str("TooLarge"),
        YamlFault::OutOfMemory => out.remember(false),
    }
}

fn push_json_of(alloc: Global, tree: &Tree, out: &mut Text)
    requires { is_distinct (shape tree.now) ≡ true }
{
    match json_of_tree(alloc, tree) {
        Ok(text) => out.push_bytes(&text),
        Err(TextFault::WideInt) => out.push_str("WideInt"),
        Err(TextFault::OutOfMemory) => out.remember(false),
    }
}

// Whether a text of YAML is read as a tree.
fn is_read_as(alloc: Global, text: &[u8], tree: &Tree) -> bool {
    match tree_of_yaml(alloc, text) {
        Ok(read) => read == *tree,
        Err(_) => false,
    }
}

// Whether the YAML of a tree is read as the same tree.
fn push_again(alloc: Global, tree: &Tree, out: &mut Text)
    requires distinct { is_distinct (shape tree.now) ≡ true }
    requires depth { levels (shape tree.now) ≤ MAX_LEVELS }
{
    match yaml_of_tree(alloc, tree) {
        Ok(text) => out.push_str(if is_read_as(alloc, &text, tree) {
            "the same"
        } else {
            "another"
        }),
        Err(OutOfMemory) => out.remember(false),
    }
}

fn push_in_form(alloc: Global, form: Form, tree: &Tree, out: &mut Text)
    requires distinct { is_distinct (shape tree.now) ≡ true }
    requires depth { levels (shape tree.now) ≤ MAX_LEVELS }
{
    match form {
        Form::Line => push_tree(tree, out),
        Form::Json => push_json_of(alloc, tree, out),
        Form::Yaml => out.push_made(yaml_of_tree(alloc, tree)),
        Form::Again => push_again(alloc, tree, out),
    }
}

// The tree of JSON.
fn push_json(alloc: Global, form: Form, text: &[u8], out: &mut Text) {
    match tree_of_json(alloc, text) {
        Ok(tree) => push_in_form(alloc, form, &tree, out),
        Err(fault) => push_json_fault(&fault, out),
    }
}

// The tree of YAML.
fn push_yaml(alloc: Global, form: Form, text: &[u8], out: &mut Text) {
    match tree_of_yaml(alloc, text) {
        Ok(tree) => push_in_form(alloc, form, &tree, out),
        Err(fault) => push_yaml_fault(fault, out),
    }
}

// `KEY JSON`: what stands under the key.
fn push_value(alloc: Global, text: &str, out: &mut Text) {
    let (key, json) = first_word(text);
    match tree_of_json(alloc, json.as_bytes()) {
        Ok(tree) => match tree.get(key) {
            Some(value) => push_tree(value, out),
            None => out.push_str("none"),
        },
        Err(fault) => push_json_fault(&fault, out),
    }
}

// The number of a plain scalar, or that there is none; and whether it is a string.
fn push_scalar(text: &str, out: &mut Text) {
    match integer_of(text) {
        Some(number) => push_integer(number, out),
        None => out.push_str("none"),
    }
    if is_plain_string(text) {
        out.push_str(", a string");
    }
}

/// Pushes the answer to a case on JSON or YAML, if it is one.
pub fn answer(alloc: Global, kind: &str, case: &[u8], out: &mut Text) -> bool {
    match kind {
        "json" => push_json(alloc, Form::Json, case, out),
        "json-tree" => push_json(alloc, Form::Line, case, out),
        "json-as-yaml" => push_json(alloc, Form::Yaml, case, out),
        "json-again-from-yaml" => push_json(alloc, Form::Again, case, out),
        "json-key" => push_value(alloc, str::from_utf8(case).unwrap_or(""), out),
        "yaml" => push_yaml(alloc, Form::Line, case, out),
        "yaml-as-json" => push_yaml(alloc, Form::Json, case, out),
        "plain-scalar" => push_scalar(str::from_utf8(case).unwrap_or(""), out),
        _ => return false,
    }
    true
}
