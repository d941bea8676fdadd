//! The order of the keys in a tree.
ghost use Rattle.std.specs.Prelude.{◌≡◌, true};
ghost use Rattle.doc_tree.specs.Order.{in_order};
ghost use Rattle.doc_tree.specs.Shape.{Shape, is_distinct};
ghost use Rattle.link_schema.specs.Hardware.{hardware};
ghost use Rattle.link_schema.specs.Links.{links};
ghost use Rattle.document_schema.specs.Document.{document};
ghost use Rattle.order_laws.specs.Alike.{AreAlike};
ghost use Rattle.order_laws.specs.Reordered.{IsReordered};

use link_schema::order_laws as link_order_laws;
use route_schema::order_laws as route_order_laws;

/// Supplies laws; has no effect at run time: of two trees that differ but in the order of their keys, both give the same,
/// with the same notes in some order, or both are refused. In a map the pairs are looked at in the tree's order, so the
/// order of notes, and which refusal is the first, do hang on it. Such a tree is the one with each map's keys in the order
/// of their bytes, as JSON is read.
pub fn document_laws()
    ensures interfaces { (s t : Shape) → IsReordered s t → AreAlike (links s) (links t) }
    ensures hardware { (s t : Shape) → IsReordered s t → AreAlike (hardware s) (hardware t) }
    ensures sorted { (s : Shape) → is_distinct s ≡ true → IsReordered s (in_order s) }
    ensures document { (s t : Shape) → IsReordered s t → AreAlike (document s) (document t) }
{
    link_order_laws();
    route_order_laws();
}
