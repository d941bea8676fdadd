//! Reading the document of a file, up to the limit of a document and one byte.
ghost use Rattle.std.specs.Prelude.{◌≡◌, ◌<◌, true, length, IfOk, Ok, map};
ghost use Rattle.document_model.specs.Entries.{is_document};
ghost use Rattle.service_run.specs.Reading.{ReadsPiece, ReadsFile, ReadsDocument};

use doc_tree::MAX_BYTES;
use document_model::Doc;
use host_core::{Failed, Folder, StartFault};
use net_model::Domain;
use order_reading::document_in;
use std::alloc::Global;
use top_model::Cause;

/// A document has at least one byte less, so that one that passes its limit is seen to.
const READ_LIMIT: usize = MAX_BYTES + 1;

/// The bytes that are asked of the folder at once.
const PIECE: usize = 4096;

// Reads on, and answers whether there may be more.
fn read_piece<F: Folder>(bytes: &mut Vec<u8>, folder: &mut F) -> Result<bool, Cause>
    requires { length bytes.old.items < READ_LIMIT }
    ensures { ReadsPiece F.tells bytes.old.items bytes.new.items (F.told folder.old) (F.told folder.new) result }
{
    let mut buffer = [0; PIECE];
    let room = PIECE.min(READ_LIMIT - bytes.len());
    let count = match folder.read(&mut buffer[..room]) {
        Ok(count) => count as usize,
        Err(Failed) => return Err(Cause::FolderFault),
    };
    if bytes.extend_from_slice(&buffer[..count]).is_err() {
        return Err(Cause::OutOfMemory);
    }
    Ok(count > 0)
}

// The bytes of the file of a name, up to the limit and one.
fn read_file<F: Folder>(alloc: Global, name: &Domain, folder: &mut F) -> Result<Vec<u8>, Cause>
    ensures { ReadsFile F.tells name.now (F.told folder.old) (F.told folder.new) result }
{
    match folder.start(name) {
        Ok(()) => {}
        Err(StartFault::NoSuchName) => return Err(Cause::NoSuchName),
        Err(StartFault::Failed) => return Err(Cause::FolderFault),
    }
    let mut bytes = Vec::new(alloc);
    while bytes.len() < READ_LIMIT {
        if !read_piece(&mut bytes, folder)? {
            break;
        }
    }
    Ok(bytes)
}

// The document of the file of a name, or why there is none.
pub(crate) fn read_document<F: Folder>(
    alloc: Global,
    name: &Domain,
    folder: &mut F,
) -> Result<Doc, Cause>
    ensures reads { ReadsDocument F.tells name.now (F.told folder.old) (F.told folder.new) result }
    ensures right { IfOk result (λ doc. is_document doc ≡ true) }
{
    let bytes = read_file(alloc, name, folder)?;
    document_in(alloc, bytes.as_slice())
}
