//! The laws of the networks that the commands leave, for every order.
ghost use Rattle.std.specs.Prelude.{◌≡◌, ℕ, List, Bool, true, Result, Ok, IfOk};
ghost use Rattle.net_model.specs.NetData.{NetData};
ghost use Rattle.net_model.specs.declared.Link.{Link};
ghost use Rattle.document_model.specs.declared.Doc.{Doc};
ghost use Rattle.document_model.specs.Entries.{is_document};
ghost use Rattle.merge_laws.specs.Laws.{target};
ghost use Rattle.merge_model.specs.MergedNet.{merge};
ghost use Rattle.engine_model.specs.Stations.{at};
ghost use Rattle.checkpoint_cell.specs.Settled.{Standing};
ghost use Rattle.shown_model.specs.Printable.{IsPrintable};
ghost use Rattle.top_model.specs.Orders.{Text, Inputs, Order, order_of};
ghost use Rattle.top_model.specs.Machine.{first_net, machine};
ghost use Rattle.top_model.specs.Exits.{Reaches};
ghost use Rattle.top_model.specs.declared.report.Cause.{Cause};
ghost use Rattle.shown_states.specs.States.{HasStations, IsHardwareList, StaysPrintable, PrintableStanding, IsRight, IsReached};

use merge_laws::merge_laws;

/// Supplies the laws of the networks that the commands leave; has no effect at run time.
pub fn state_laws()
    // The first network, of a hardware list, is printable and stays so.
    ensures first { (links : List Link) → IsHardwareList links → StaysPrintable (first_net links) }
    // A merge keeps that a network is printable, and the permanent MACs.
    ensures printable { (net : NetData) (doc : Doc) → IsPrintable net → HasStations net → is_document doc ≡ true → IsPrintable (target net doc) }
    ensures stations { (net : NetData) (doc : Doc) → HasStations net → is_document doc ≡ true → HasStations (target net doc) }
    // So what a document makes of such a network is such a network.
    ensures merged { (net to : NetData) (doc : Doc) → StaysPrintable net → is_document doc ≡ true → merge net doc ≡ Ok to → StaysPrintable to }
    // Each order keeps it, of the network that stands and of the one in the checkpoint.
    ensures kept { (now : ℕ) (order : Order) (e : Standing) → IsRight order → PrintableStanding e → PrintableStanding (machine now order e).after }
    // So has each of those that a command which is stopped, or kept from its end, may lead to beside its entry.
    ensures stopped { (now : ℕ) (order : Result Order Cause) (e stands : Standing) → IfOk order IsRight
        → PrintableStanding e → Reaches now (at e) order stands → PrintableStanding stands }
    // The order that words and inputs give, if any, is right.
    ensures read { (in_script : Bool) (inputs : Inputs) (words : List Text) → IfOk (order_of in_script inputs words) IsRight }
    // Each state that the commands reach from nothing has it.
    ensures reached { (e : Standing) → IsReached e → PrintableStanding e }
{
    merge_laws();
}
