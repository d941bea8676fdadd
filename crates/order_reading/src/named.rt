//! The document of a FILE that may be nothing else.
ghost use Rattle.std.specs.Prelude.{◌≡◌, ◌&&◌, true, false, IfOk};
ghost use Rattle.document_model.specs.Entries.{is_document, has_short_doc};
ghost use Rattle.top_model.specs.Orders.{and_then, input, document};
ghost use Rattle.order_reading.specs.Reading.{Reads, GoesOn, Takes, itself};

use crate::document::document_in;
use crate::input::read_input;
use base_model::Str;
use document_model::Doc;
use host_core::Source;
use std::alloc::Global;
use top_model::Cause;

/// The document of a FILE, or why there is none: `NoSuchName`, or `ReadFault` where the source failed, then `DocRefused`. Out of
/// memory may come at any place. A FILE that is missing is standard input.
pub fn read_document<S: Source>(
    alloc: Global,
    file: &Option<Str>,
    src: &mut S,
) -> Result<Doc, Cause>
    ensures read { Reads itself (λ inputs. and_then (input false inputs file.now) document) S.tells (S.told src.old) (S.told src.new) result }
    ensures source { GoesOn S.tells (S.told src.old) (S.told src.new) }
    // The FILE is read, up to the limit and one byte, and nothing else.
    ensures taken { Takes S.tells (S.told src.old) (S.told src.new) file.now result }
    ensures right { IfOk result (λ doc. is_document doc && has_short_doc doc ≡ true) }
{
    let bytes = read_input(alloc, false, file, src)?;
    document_in(alloc, bytes.as_slice())
}
