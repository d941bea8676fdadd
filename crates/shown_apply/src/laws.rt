//! The laws of a printed state that is read and merged again, for every network.
ghost use Rattle.shown_apply.specs.Laws.{state_text, state_line, ReadsAsShown, ShownIsSame, ChangesNothing, LeavesNetwork};

use order_laws::document_laws;
use shown_merge::shown_laws;
use shown_reading::reading_laws as shown_reading_laws;
use yaml_read::reading_laws;
use yaml_text::printing_laws;

/// Supplies the laws of a printed state that is read and merged again; has no effect at run time. They speak of networks
/// whose numbers are in the ranges of their types, whose links have no address in fe80::/10, and MACs with an even first byte
/// that aren't all zero, and of texts within the limit of a document.
pub fn apply_laws()
    // The YAML text and the line of JSON are read as the document that they show.
    ensures yaml { ReadsAsShown state_text }
    ensures json { ReadsAsShown state_line }
    // Merging that document breaks no rule and gives the network again.
    ensures shown { ShownIsSame }
    // So what either is read as, merged, changes nothing.
    ensures same { ChangesNothing state_text }
    ensures same_json { ChangesNothing state_line }
    // Where the network stands alone, it plans to itself, and an apply leaves it.
    ensures stays { LeavesNetwork state_text }
    ensures stays_json { LeavesNetwork state_line }
{
    printing_laws();
    reading_laws();
    document_laws();
    shown_reading_laws();
    shown_laws();
}
