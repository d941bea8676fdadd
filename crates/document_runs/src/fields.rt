//! What an entry states, field by field, each with a space in front.

use base_model::{OutOfMemory, push_decimal};
use document_model::Claim;
use net_model::{Items, Name, Prefix};
use net_text::{bool_word, write_prefix};

fn push_key(key: &str, out: &mut Vec<u8>) -> Result<(), OutOfMemory> {
    out.push(b' ')?;
    out.extend_from_slice(key.as_bytes())?;
    out.push(b'=')?;
    Ok(())
}

pub fn push_bytes(key: &str, bytes: Option<&[u8]>, out: &mut Vec<u8>) -> Result<(), OutOfMemory> {
    if let Some(bytes) = bytes {
        push_key(key, out)?;
        out.extend_from_slice(bytes)?;
    }
    Ok(())
}

pub fn push_word(key: &str, word: Option<&str>, out: &mut Vec<u8>) -> Result<(), OutOfMemory> {
    match word {
        Some(word) => push_bytes(key, Some(word.as_bytes()), out),
        None => Ok(()),
    }
}

pub fn push_bool(key: &str, value: Option<bool>, out: &mut Vec<u8>) -> Result<(), OutOfMemory> {
    match value {
        Some(value) => push_word(key, Some(bool_word(value)), out),
        None => Ok(()),
    }
}

pub fn push_number(key: &str, number: Option<u32>, out: &mut Vec<u8>) -> Result<(), OutOfMemory> {
    match number {
        Some(number) => {
            push_key(key, out)?;
            push_decimal(number, out)
        }
        None => Ok(()),
    }
}

pub fn push_name(key: &str, name: Option<Name>, out: &mut Vec<u8>) -> Result<(), OutOfMemory> {
    match name {
        Some(name) => push_bytes(key, Some(name.as_bytes()), out),
        None => Ok(()),
    }
}

fn push_stated_claim(key: &str, claim: &Claim, out: &mut Vec<u8>) -> Result<(), OutOfMemory> {
    match claim {
        Claim::To(name) => push_bytes(key, Some(name.as_bytes()), out),
        Claim::Nobody => push_word(key, Some("-"), out),
    }
}

pub fn push_claim(key: &str, claim: &Option<Claim>, out: &mut Vec<u8>) -> Result<(), OutOfMemory> {
    match claim {
        Some(claim) => push_stated_claim(key, claim, out),
        None => Ok(()),
    }
}

// A comma before each item but the first.
fn push_comma(is_first: bool, out: &mut Vec<u8>) -> Result<(), OutOfMemory> {
    if !is_first {
        out.push(b',')?;
    }
    Ok(())
}

fn push_list_of_names(names: &Vec<Name>, out: &mut Vec<u8>) -> Result<(), OutOfMemory> {
    for (i, name) in names.iter().enumerate() {
        push_comma(i == 0, out)?;
        out.extend_from_slice(name.as_bytes())?;
    }
    Ok(())
}

pub fn push_names(
    key: &str,
    names: &Option<Items<Name>>,
    out: &mut Vec<u8>,
) -> Result<(), OutOfMemory> {
    match names {
        Some(names) => {
            push_key(key, out)?;
            push_list_of_names(names.items(), out)
        }
        None => Ok(()),
    }
}

fn push_list_of_prefixes(prefixes: &Vec<Prefix>, out: &mut Vec<u8>) -> Result<(), OutOfMemory> {
    for (i, prefix) in prefixes.iter().enumerate() {
        push_comma(i == 0, out)?;
        write_prefix(prefix, out)?;
    }
    Ok(())
}

pub fn push_prefixes(
    key: &str,
    prefixes: &Option<Items<Prefix>>,
    out: &mut Vec<u8>,
) -> Result<(), OutOfMemory> {
    match prefixes {
        Some(prefixes) => {
            push_key(key, out)?;
            push_list_of_prefixes(prefixes.items(), out)
        }
        None => Ok(()),
    }
}
