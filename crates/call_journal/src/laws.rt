//! What holds of calls as bytes, of journals and of kernel areas.
ghost use Rattle.call_journal.specs.Laws.{CallLaws, JournalLaws, AreaLaws};

use net_image::image_laws;

/// A call has one spelling and bytes are those of one call; no call is a proper prefix of another; a call has at most
/// 4,339 bytes. It has no effect at run time.
pub fn call_laws()
    ensures { CallLaws }
{}

/// What is replayed is what the records of the bytes lead to, and where they lead somewhere it is replayed. It has no
/// effect at run time.
pub fn journal_laws()
    ensures { JournalLaws }
{}

/// A kernel area stands for the network that is read from it, and for no other; the version of an image is told by its
/// first four bytes. It has no effect at run time.
pub fn area_laws()
    ensures { AreaLaws }
{
    image_laws();
}
