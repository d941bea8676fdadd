//! The files of a folder, as cases write them.
ghost use Rattle.std.specs.Prelude.{◌≡◌};
ghost use Rattle.std.specs.List.{list_any};
ghost use Rattle.net_model.specs.Name.{same_bytes};
ghost use Rattle.case_outside.specs.FolderRecord.{differ};

use crate::not_done::NotDone;
use case_outside::{FolderFile, MemoryFolder};
use host_memory::Fuse;
use net_model::Domain;
use std::alloc::Global;

fn has_name(files: &[FolderFile], name: &Domain) -> bool
    ensures { result ≡ list_any (λ b. same_bytes name.now b.name) files.now }
{
    files.iter().any(|file| *name == file.name)
}

fn differ(files: &[FolderFile]) -> bool
    ensures { result ≡ differ files.now }
{
    let mut left = files;
    while let Some((file, rest)) = left.split_first() {
        if has_name(rest, &file.name) {
            return false;
        }
        left = rest;
    }
    true
}

/// A folder of these files, at which these calls fail, where no two files have one name.
pub fn folder(
    alloc: Global,
    files: Vec<FolderFile>,
    fuses: Vec<Fuse>,
) -> Result<MemoryFolder, NotDone> {
    if !differ(files.as_slice()) {
        return Err(NotDone);
    }
    Ok(MemoryFolder::new(alloc, files, fuses))
}

/// A folder without files.
pub fn no_files(alloc: Global) -> MemoryFolder {
    MemoryFolder::new(alloc, Vec::new(alloc), Vec::new(alloc))
}

fn domain_of(alloc: Global, name: &str) -> Result<Domain, NotDone> {
    match Domain::of(Vec::from_slice(alloc, name.as_bytes())?) {
        Some(name) => Ok(name),
        None => Err(NotDone),
    }
}

// `NAME=TEXT`, of a marked file `+NAME=TEXT`.
fn read_file(alloc: Global, word: &str) -> Result<FolderFile, NotDone> {
    let Some((name, text)) = word.split_once('=') else {
        return Err(NotDone);
    };
    let bytes = Vec::from_slice(alloc, text.as_bytes())?;
    Ok(FolderFile {
        name: domain_of(alloc, name.strip_prefix('+').unwrap_or(name))?,
        bytes,
        marked: name.starts_with('+'),
    })
}

/// Reads `FILE ..`, or `none`.
pub fn read_files(alloc: Global, words: &str) -> Result<Vec<FolderFile>, NotDone> {
    let mut files = Vec::new(alloc);
    if words == "none" {
        return Ok(files);
    }
    for word in words.split(' ') {
        files.push(read_file(alloc, word)?)?;
    }
    Ok(files)
}

fn copied_file(file: &FolderFile, marked: bool) -> Result<FolderFile, NotDone> {
    let bytes = file.bytes.clone()?;
    Ok(FolderFile {
        name: file.name.clone()?,
        bytes,
        marked,
    })
}

/// The same files, with the same marks.
pub fn copied(alloc: Global, files: &[FolderFile]) -> Result<Vec<FolderFile>, NotDone> {
    let mut copies = Vec::new(alloc);
    for file in files {
        copies.push(copied_file(file, file.marked)?)?;
    }
    Ok(copies)
}

/// The first so many of the files, of which the first are marked, so many, and no others.
pub fn first_of(
    alloc: Global,
    files: &[FolderFile],
    count: u64,
    marked: u64,
) -> Result<Vec<FolderFile>, NotDone> {
    let mut copies = Vec::new(alloc);
    let mut place = 0u64;
    for file in files {
        if place < count {
            copies.push(copied_file(file, place < marked)?)?;
        }
        place = place.saturating_add(1);
    }
    Ok(copies)
}

/// How many of the files are marked, where these are the first ones.
pub fn first_marked(files: &[FolderFile]) -> Option<u64> {
    let mut count = 0u64;
    let mut is_over = false;
    for file in files {
        if !file.marked {
            is_over = true;
        } else if is_over {
            return None;
        } else {
            count = count.saturating_add(1);
        }
    }
    Some(count)
}

/// The file of a name.
pub fn find<'a>(files: &'a [FolderFile], name: &str) -> Result<&'a FolderFile, NotDone> {
    for file in files {
        if file.name.as_bytes() == name.as_bytes() {
            return Ok(file);
        }
    }
    Err(NotDone)
}
