// The route from the root hub down to a device.
ghost use Rattle.std.specs.Prelude.{◌≡◌, ◌*◌, ◌<◌, ◌^◌};
ghost use Rattle.hub.specs.Route.{clamp, route_string};

use crate::way::Way;

// The Route String of a device's slot context.
pub fn route_string(hubs: &[u64], parent: Option<usize>, port: u8) -> u32
    ensures { result ≡ route_string hubs.now parent port }
{
    let Some(parent) = parent else {
        return 0;
    };
    let mut route = 0;
    for socket in Way::above(hubs, parent, port) {
        route += nibble(socket.port, socket.depth);
    }
    route
}

// A port's part of the route string, on a hub of this depth.
#[tactic(auto, using(crate::proofs::Steps::nibble_right), unfolding(crate::specs::Route::clamp))]
fn nibble(port: u8, depth: u8) -> u32
    requires { depth < 7 }
    ensures { result ≡ clamp port * 16 ^ depth }
{
    u32::from(port.min(15)) << (4 * depth)
}
