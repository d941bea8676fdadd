//! Reading an input.
ghost use Rattle.std.specs.Prelude.{◌≡◌, ◌<◌, ◌&&◌, None, is_none, IsErrOf, length, unwrap_or};
ghost use Rattle.top_model.specs.Orders.{input, stdin};
ghost use Rattle.top_model.specs.declared.Cause.TheVariants.{Usage};
ghost use Rattle.order_reading.specs.Reading.{Reads, GoesOn, Takes};
ghost use Rattle.order_reading.specs.AsDefined.{read_there};
ghost use Rattle.order_reading.specs.Pieces.{ReadsPiece, ReadsName, bytes_seen};

use base_model::Str;
use doc_tree::MAX_BYTES;
use host_core::{Failed, Source, StartFault};
use std::alloc::Global;
use top_model::Cause;

/// A document, a script or a text of calls has at least one byte less, so that one that passes its limit is seen to.
const READ_LIMIT: usize = MAX_BYTES + 1;

/// The bytes that are asked of the source at once.
const PIECE: usize = 4096;

/// The name of standard input.
const STANDARD_INPUT: &str = "-";

// Reads on, and answers whether there may be more.
fn read_piece<S: Source>(bytes: &mut Vec<u8>, src: &mut S) -> Result<bool, Cause>
    requires { length bytes.old.items < READ_LIMIT }
    ensures { ReadsPiece S.tells bytes.old.items bytes.new.items (S.told src.old) (S.told src.new) result }
{
    let mut buffer = [0; PIECE];
    let room = PIECE.min(READ_LIMIT - bytes.len());
    let count = match src.read(&mut buffer[..room]) {
        Ok(count) => count as usize,
        Err(Failed) => return Err(Cause::ReadFault),
    };
    if bytes.extend_from_slice(&buffer[..count]).is_err() {
        return Err(Cause::OutOfMemory);
    }
    Ok(count > 0)
}

// The bytes of the input of a name, up to the limit and one.
fn read_name<S: Source>(alloc: Global, name: &str, src: &mut S) -> Result<Vec<u8>, Cause>
    ensures { ReadsName S.tells name.now (S.told src.old) (S.told src.new) result }
{
    match src.start(name) {
        Ok(()) => {}
        Err(StartFault::NoSuchName) => return Err(Cause::NoSuchName),
        Err(StartFault::Failed) => return Err(Cause::ReadFault),
    }
    let mut bytes = Vec::new(alloc);
    while bytes.len() < READ_LIMIT {
        if !read_piece(&mut bytes, src)? {
            break;
        }
    }
    Ok(bytes)
}

// The name of a FILE, which is that of standard input where it is missing.
fn name_of(file: &Option<Str>) -> &str
    ensures { result.now ≡ unwrap_or file.now stdin }
{
    match file {
        Some(name) => name.as_str(),
        None => STANDARD_INPUT,
    }
}

// Whether a command would read standard input within a script.
fn is_refused(in_script: bool, file: &Option<Str>) -> bool
    ensures { result ≡ (in_script && is_none file.now) }
{
    in_script && file.is_none()
}

/// The bytes of a command's FILE, up to the limit and one. Standard input may not be read in a script.
pub fn read_input<S: Source>(
    alloc: Global,
    in_script: bool,
    file: &Option<Str>,
    src: &mut S,
) -> Result<Vec<u8>, Cause>
    ensures bytes { Reads bytes_seen (λ inputs. input in_script inputs file.now) S.tells (S.told src.old) (S.told src.new) result }
    ensures source { GoesOn S.tells (S.told src.old) (S.told src.new) }
    ensures taken { Takes S.tells (S.told src.old) (S.told src.new) file.now result }
    // A refusal of the words reads nothing.
    ensures refused { read_there in_script file.now ≡ None → IsErrOf result Usage × (src.new ≡ src.old) }
{
    if is_refused(in_script, file) {
        return Err(Cause::Usage);
    }
    read_name(alloc, name_of(file), src)
}
