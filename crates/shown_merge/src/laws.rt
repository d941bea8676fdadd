//! The laws of a printed state that is merged into its own network, for every network.
ghost use Rattle.net_model.specs.NetData.{NetData, IsNet};
ghost use Rattle.shown_merge.specs.Laws.{KeepsLists, KeepsMembers, KeepsLinks, BreaksNoLinkRule, MergesToItself};

/// Supplies the laws of a printed state that is merged into its own network; has no effect at run time.
pub fn shown_laws()
    // DNS, rules and routes stay, and no rule on routes is broken.
    ensures lists { (net : NetData) → IsNet net → KeepsLists net }
    // Each link has its member, in order.
    ensures members { (net : NetData) → IsNet net → KeepsMembers net }
    // The merged links are the links.
    ensures links { (net : NetData) → IsNet net → KeepsLinks net }
    // No rule on links is broken.
    ensures link_rules { (net : NetData) → IsNet net → BreaksNoLinkRule net }
    // Merging the document breaks no rule and gives the network again.
    ensures same { (net : NetData) → IsNet net → MergesToItself net }
{}
