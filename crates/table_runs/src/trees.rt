//! Trees on one line, strings between apostrophes.

use base_model::push_decimal;
use case_table::Text;
use doc_tree::Tree;

fn push_string(string: &str, out: &mut Text) {
    out.push_byte(b'\'');
    out.push_str(string);
    out.push_byte(b'\'');
}

/// Pushes a number in decimal.
pub fn push_integer(number: i128, out: &mut Text) {
    let pushed = push_decimal(number, &mut out.bytes);
    out.remember(pushed.is_ok());
}

pub fn push_tree(tree: &Tree, out: &mut Text) {
    match tree {
        Tree::Null => out.push_str("null"),
        Tree::Bool(true) => out.push_str("true"),
        Tree::Bool(false) => out.push_str("false"),
        Tree::Int(number) => push_integer(*number, out),
        Tree::Text(text) => push_string(text.as_str(), out),
        Tree::List(items) => {
            let mut between = b"".as_slice();
            out.push_byte(b'[');
            for item in items {
                out.push_bytes(between);
                push_tree(item, out);
                between = b",";
            }
            out.push_byte(b']');
        }
        Tree::Map(pairs) => {
            let mut between = b"".as_slice();
            out.push_byte(b'{');
            for pair in pairs {
                out.push_bytes(between);
                push_string(pair.0.as_str(), out);
                out.push_byte(b':');
                push_tree(&pair.1, out);
                between = b",";
            }
            out.push_byte(b'}');
        }
    }
}
