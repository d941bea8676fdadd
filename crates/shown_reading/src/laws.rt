//! What a printed state is read as.
ghost use Rattle.shown_reading.specs.Laws.{ReadsLinksAsShown, ReadsAllAsShown, AnswersAsShown};

/// Supplies the laws of reading a printed state; has no effect at run time. They speak of networks whose links have no
/// address in fe80::/10, and MACs with an even first byte that aren't all zero: others are printed too, and what is printed
/// of them isn't read as they are.
pub fn reading_laws()
    // The interfaces are read as the links that are shown, without a note.
    ensures links { ReadsLinksAsShown }
    // The whole is read as the links, routes, rules and DNS that are shown, without a note.
    ensures whole { ReadsAllAsShown }
    // So the document that is shown is what is answered.
    ensures answer { AnswersAsShown }
{}
