//! The texts that take memory: the notes of a document, a printed state, the calls of a plan.
ghost use Rattle.std.specs.Prelude.{◌≡◌, ◌++◌, ◌≤◌, Bool, true, IfOk, OnOk, option_map, IsTrue};
ghost use Rattle.std.specs.List.{list_all};
ghost use Rattle.doc_tree.specs.Shape.{shape, is_distinct, levels};
ghost use Rattle.doc_tree.specs.JsonText.{json_text};
ghost use Rattle.doc_tree.specs.Integers.{integers_fit};
ghost use Rattle.doc_tree.specs.declared.limits.TheConstants.{MAX_LEVELS};
ghost use Rattle.net_text.specs.Line.{call_line, has_line};
ghost use Rattle.show_core.specs.Network.{network_tree};
ghost use Rattle.top_model.specs.Said.{line, shown, call_lines};
ghost use Rattle.top_model.specs.Texts.{note, note_lines};

use base_model::{OutOfMemory, Path, write_path};
use doc_tree::{Tree, json_of_tree};
use net_core::Net;
use net_model::Call;
use net_text::write_call_line;
use show_core::tree_of_net;
use std::alloc::Global;
use yaml_text::yaml_of_tree;

fn push_note(path: &Path, out: &mut Vec<u8>) -> Result<(), OutOfMemory>
    ensures { OnOk result (out.new.items ≡ out.old.items ++ note path.now) }
{
    out.extend_from_slice(b"note: ")?;
    write_path(path, out)?;
    out.extend_from_slice(b" is read over\n")?;
    Ok(())
}

/// The notes of a document: a line for each key that is read over.
pub fn note_text(alloc: Global, notes: &[Path]) -> Result<Vec<u8>, OutOfMemory>
    ensures { IfOk result (λ text. text.items ≡ note_lines notes.now) }
{
    let mut out = Vec::new(alloc);
    for path in notes {
        push_note(path, &mut out)?;
    }
    Ok(out)
}

fn push_call(call: &Call, out: &mut Vec<u8>) -> Result<(), OutOfMemory>
    requires { IsTrue (has_line call.now) }
    ensures { OnOk result (out.new.items ≡ out.old.items ++ line (call_line call.now)) }
{
    write_call_line(call, out)?;
    out.push(b'\n')?;
    Ok(())
}

/// The lines of a plan's calls. None of them would make a link of hardware, which has no line.
pub fn call_text(alloc: Global, calls: &[Call]) -> Result<Vec<u8>, OutOfMemory>
    requires { IsTrue (list_all has_line calls.now) }
    ensures { IfOk result (λ text. text.items ≡ call_lines calls.now) }
{
    let mut out = Vec::new(alloc);
    for call in calls {
        push_call(call, &mut out)?;
    }
    Ok(out)
}

// The one line of JSON of a tree.
fn json_line(alloc: Global, tree: &Tree) -> Result<Vec<u8>, OutOfMemory>
    requires distinct { is_distinct (shape tree.now) ≡ true }
    ensures { IfOk result (λ text. text.items ≡ line (json_text (shape tree.now))) }
{
    match json_of_tree(alloc, tree) {
        Ok(mut text) => {
            text.push(b'\n')?;
            Ok(text)
        }
        Err(_) => Err(OutOfMemory),
    }
}

/// The printed state of a network, or of the link of a name alone: in YAML, or as one line of JSON.
pub fn shown_text(
    alloc: Global,
    net: &Net,
    only: Option<&[u8]>,
    json: bool,
) -> Result<Vec<u8>, OutOfMemory>
    ensures { IfOk result (λ text. text.items ≡ shown (option_map (λ name. name.now) only.entry) json net.now) }
{
    let tree = tree_of_net(alloc, net, only)?;
    if json {
        json_line(alloc, &tree)
    } else {
        yaml_of_tree(alloc, &tree)
    }
}
