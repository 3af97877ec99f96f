// Whether the hubs above a device form a chain.
ghost use Rattle.std.specs.Prelude.{◌≡◌};
ghost use Rattle.hub.specs.Chain.{hub_fits, chain_ok};

use crate::hub_word::{HubInfo, hub_at};
use crate::way::Way;

const MAX_HUBS: usize = 256;

const MAX_DEPTH_PLUS_ONE: u8 = 5;

// Whether the hub list is accepted, and the hubs from a device's parent up to the root hub form a chain. Past the end of the list
// no hub is present.
pub fn chain_ok(hubs: &[u64], parent: Option<usize>) -> bool
    ensures { result ≡ chain_ok hubs.now parent }
{
    if MAX_HUBS < hubs.len() {
        return false;
    }
    let Some(mut at) = parent else {
        return true;
    };
    if MAX_DEPTH_PLUS_ONE < hub_at(hubs, at).depth_plus_one {
        return false;
    }
    for socket in Way::above(hubs, at, 0) {
        let h = socket.hub;
        if !hub_fits(h, socket.depth + 1) {
            return false;
        }
        if !h.has_parent {
            return false;
        }
        at = h.parent;
    }
    hub_fits(hub_at(hubs, at), 0)
}

// Whether a hub may stand on a chain at this depth plus one.
#[tactic(auto, unfolding(crate::specs::Chain::hub_fits))]
fn hub_fits(h: HubInfo, depth_plus_one: u8) -> bool
    ensures { result ≡ hub_fits h depth_plus_one }
{
    h.present && def::speed_known(h.speed) && h.unused == 0 && h.depth_plus_one == depth_plus_one
}
