//! Trees of words, numbers, names and addresses, and of lists of them.
ghost use Rattle.std.specs.Prelude.{◌≡◌, IfOk};
ghost use Rattle.addr_text.specs.Mac.{mac_text};
ghost use Rattle.doc_tree.specs.Shape.{shape, truth, text};
ghost use Rattle.show_core.specs.Fields.{number, each, address, prefix, hardware};
ghost use Rattle.show_core.specs.Links.{address_tree as address_pair};

use crate::pairs::Pairs;
use doc_tree::{Str, Tree};
use net_model::{Addr, Domain, Mac, Name, OutOfMemory, Prefix, Subnet};
use net_text::{write_addr, write_mac, write_prefix};
use std::alloc::Global;

/// A value that is printed as a tree.
pub trait Shown {
    ghost use Rattle.doc_tree.specs.Shape.{Shape};

    ghost tree: { Self → Shape };

    fn show(&self, alloc: Global) -> Result<Tree, OutOfMemory>
        ensures { IfOk result (λ done. shape done ≡ tree self.now) };
}

pub fn bool_tree(b: bool) -> Tree
    ensures { shape result ≡ truth b }
{
    Tree::Bool(b)
}

pub fn number_tree(n: u32) -> Tree
    ensures { shape result ≡ number n }
{
    Tree::Int(i128::from(n))
}

pub fn word_tree(alloc: Global, word: &str) -> Result<Tree, OutOfMemory>
    ensures { IfOk result (λ tree. shape tree ≡ text word.now) }
{
    Ok(Tree::Text(Str::of(String::from_str(alloc, word)?)))
}

// The string of these bytes. All bytes here are ASCII: names, domains and what addresses are written as. A body that
// finds others has no better answer than out of memory.
fn text_tree(bytes: Vec<u8>) -> Result<Tree, OutOfMemory>
    ensures { IfOk result (λ tree. shape tree ≡ text bytes.items) }
{
    match String::from_utf8(bytes) {
        Ok(text) => Ok(Tree::Text(Str::of(text))),
        Err(_) => Err(OutOfMemory),
    }
}

pub fn name_tree(alloc: Global, name: &Name) -> Result<Tree, OutOfMemory>
    ensures { IfOk result (λ tree. shape tree ≡ text name.now) }
{
    text_tree(Vec::from_slice(alloc, name.as_bytes())?)
}

pub fn address_tree(alloc: Global, addr: Addr) -> Result<Tree, OutOfMemory>
    ensures { IfOk result (λ tree. shape tree ≡ address addr) }
{
    let mut text = Vec::new(alloc);
    write_addr(&addr, &mut text)?;
    text_tree(text)
}

pub fn subnet_tree(alloc: Global, subnet: Subnet) -> Result<Tree, OutOfMemory>
    ensures { IfOk result (λ tree. shape tree ≡ prefix subnet) }
{
    let mut text = Vec::new(alloc);
    write_prefix(&subnet.prefix(), &mut text)?;
    text_tree(text)
}

pub fn mac_tree(alloc: Global, mac: Mac) -> Result<Tree, OutOfMemory>
    ensures { IfOk result (λ tree. shape tree ≡ hardware mac) }
{
    let mut text = Vec::new(alloc);
    write_mac(&mac, &mut text)?;
    text_tree(text)
}

impl Shown for Name {
    ghost use Rattle.doc_tree.specs.Shape.{text};

    ghost tree = { text };

    fn show(&self, alloc: Global) -> Result<Tree, OutOfMemory> {
        name_tree(alloc, self)
    }
}

impl Shown for Domain {
    ghost use Rattle.doc_tree.specs.Shape.{text};

    ghost tree = { text };

    fn show(&self, alloc: Global) -> Result<Tree, OutOfMemory> {
        text_tree(Vec::from_slice(alloc, self.as_bytes())?)
    }
}

impl Shown for Addr {
    ghost use Rattle.show_core.specs.Fields.{address};

    ghost tree = { address };

    fn show(&self, alloc: Global) -> Result<Tree, OutOfMemory> {
        address_tree(alloc, *self)
    }
}

impl Shown for Prefix {
    ghost use Rattle.show_core.specs.Links.{address_tree};

    ghost tree = { address_tree };

    fn show(&self, alloc: Global) -> Result<Tree, OutOfMemory> {
        prefix_tree(alloc, *self)
    }
}

// An address of a link with its length.
fn prefix_tree(alloc: Global, of: Prefix) -> Result<Tree, OutOfMemory>
    ensures { IfOk result (λ tree. shape tree ≡ address_pair of) }
{
    Pairs::new(alloc)
        .put("ip", address_tree(alloc, of.addr()))
        .put_number("prefix-length", u32::from(of.len()))
        .into_tree()
}

/// The list of their trees.
pub fn each<T: Shown>(alloc: Global, items: &[T]) -> Result<Tree, OutOfMemory>
    ensures { IfOk result (λ tree. shape tree ≡ each T.tree items.now) }
{
    let mut trees = Vec::new(alloc);
    for item in items {
        let tree = item.show(alloc)?;
        trees.push(tree)?;
    }
    Ok(Tree::List(trees))
}
