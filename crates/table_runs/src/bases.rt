//! Places in a document, and lists that a struct owns.

use crate::places::push_place;
use base_model::{Items, OutOfMemory, Path, PathStep, Str, push_decimal};
use case_table::{Text, first_word};
use std::alloc::Global;

// `.KEY` or `[POSITION`.
fn step(alloc: Global, word: &str) -> Result<PathStep, OutOfMemory> {
    match word.strip_prefix('[') {
        Some(position) => Ok(PathStep::At(position.parse::<u32>().unwrap_or(0))),
        None => {
            let key = word.strip_prefix('.').unwrap_or(word);
            Ok(PathStep::Key(Str::of(String::from_str(alloc, key)?)))
        }
    }
}

// The place to which the steps of words lead.
fn place(alloc: Global, words: &str) -> Result<Path, OutOfMemory> {
    let mut path = Path::top(alloc);
    for word in words.split_ascii_whitespace() {
        path.push(step(alloc, word)?)?;
    }
    Ok(path)
}

// The place of the words, behind what stands there already.
fn push_behind(alloc: Global, words: &str, out: &mut Text) -> Result<(), OutOfMemory> {
    let path = place(alloc, words)?;
    out.push_str("at ");
    push_place(&path, out);
    Ok(())
}

// `STEP STEPS`: the place of the steps, the one that goes the step further, and the first once more.
fn push_extended(alloc: Global, words: &str, out: &mut Text) -> Result<(), OutOfMemory> {
    let (word, steps) = first_word(words);
    let path = place(alloc, steps)?;
    let further = path.extended(step(alloc, word)?)?;
    push_place(&path, out);
    out.push_str(", ");
    push_place(&further, out);
    out.push_str(", ");
    push_place(&path, out);
    Ok(())
}

// Puts a number in at an index, where the list is as long.
fn insert(list: &mut Items<u32>, index: usize, number: u32) -> Result<(), OutOfMemory> {
    if index <= list.items().len() {
        list.insert(index, number)
    } else {
        Ok(())
    }
}

// Takes out what stands at an index, and says it.
fn remove(list: &mut Items<u32>, index: usize, out: &mut Text) {
    if index < list.items().len() {
        out.push_count(u64::from(list.remove(index)), ", ");
    }
}

// An edit of a list: `+NUMBER`, `INDEX+NUMBER`, `-INDEX`, or `clear`.
fn edit(list: &mut Items<u32>, word: &str, out: &mut Text) {
    if word == "clear" {
        list.clear();
        return;
    }
    if let Some(index) = word.strip_prefix('-') {
        remove(list, index.parse::<usize>().unwrap_or(0), out);
        return;
    }
    let (index, number) = word.split_once('+').unwrap_or(("", word));
    let number = number.parse::<u32>().unwrap_or(0);
    let edited = match index.parse::<usize>() {
        Ok(index) => insert(list, index, number),
        Err(_) => list.push(number),
    };
    out.remember(edited.is_ok());
}

// What is taken out of a list by edits, and what it is then.
fn push_edits(alloc: Global, words: &str, out: &mut Text) {
    let mut list = Items::of(Vec::new(alloc));
    for word in words.split_ascii_whitespace() {
        edit(&mut list, word, out);
    }
    out.push_byte(b':');
    for number in list.items() {
        out.push_byte(b' ');
        out.push_number(u64::from(*number));
    }
}

/// Pushes the answer to a case on places or lists, if it is one.
pub fn answer(alloc: Global, kind: &str, case: &str, out: &mut Text) -> bool {
    let pushed = match kind {
        "place" => push_behind(alloc, case, out),
        "place-further" => push_extended(alloc, case, out),
        "list-edits" => {
            push_edits(alloc, case, out);
            Ok(())
        }
        _ => return false,
    };
    out.remember(pushed.is_ok());
    true
}
