//! The part of validity that looks at the two ends of each pair.
ghost use Rattle.std.specs.Prelude.{◌≡◌, ◌&&◌, not, true};
ghost use Rattle.net_model.specs.Words.{rises};
ghost use Rattle.net_model.specs.Order.{link_cmp};
ghost use Rattle.net_model.specs.Links.{has_peer, peer_passes};
ghost use Rattle.net_model.specs.Valid.{peers_stand};

use net_lists::{find_link, has_peer};
use net_model::{Kind, Link, Name};

#[tactic(auto, using(net_model::proofs::lemmas::Found::named_passes_found))]
fn peer_answers(links: &[Link], kind: &Kind, own: &Name) -> bool
    requires { rises link_cmp links.now ≡ true }
    ensures { result ≡ peer_passes (λ p. has_peer p.kind own.now) links.now kind.now }
{
    match kind {
        Kind::Veth { peer } => match find_link(links, peer) {
            Some(link) => has_peer(&link.kind, own),
            None => false,
        },
        _ => true,
    }
}

/// Part 13: whether each veth's peer is another veth, whose peer it is.
pub fn peers_stand(links: &[Link]) -> bool
    requires { rises link_cmp links.now ≡ true }
    ensures { result ≡ peers_stand links.now }
{
    links.iter().all(|link| {
        !has_peer(&link.kind, &link.name) && peer_answers(links, &link.kind, &link.name)
    })
}
