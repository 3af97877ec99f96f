// The way from a device up to the root hub.
ghost use Rattle.std.specs.Prelude.{◌<◌};

use crate::hub_word::{HubInfo, hub_at};

// A socket on the way: a port of a hub, and the hub's depth.
#[derive(Clone, Copy)]
pub struct Socket {
    pub hub: HubInfo,
    pub port: u8,
    pub depth: u8,
}

// The sockets still to come, of the hub at an index and of those above it but the root hub.
#[derive(Clone, Copy)]
pub struct Way<'a> {
    hubs: &'a [u64],
    at: usize,
    port: u8,
    depth_plus_one: u8,
    ghost shallow: { depth_plus_one < 8 },
}

impl<'a> Way<'a> {
    ghost use Rattle.hub.specs.Way.{BeginsAt};

    // The way from a port of the hub at an index.
    pub fn above(hubs: &'a [u64], at: usize, port: u8) -> Way<'a>
        ensures { BeginsAt result hubs.now at port }
    {
        Way {
            hubs,
            at,
            port,
            depth_plus_one: hub_at(hubs, at).depth_plus_one,
        }
    }
}

impl Iterator for Way<'_> {
    ghost use Rattle.std.specs.Iterator.{at_most};
    ghost use Rattle.hub.specs.Way.{GivesSocket};

    type Item = Socket;

    ghost next_gives = { GivesSocket };

    ghost remaining = { λ w. at_most w.depth_plus_one };

    fn next(&mut self) -> Option<Socket> {
        if self.depth_plus_one == 0 {
            return None;
        }
        let hub = hub_at(self.hubs, self.at);
        let socket = Socket {
            hub,
            port: self.port,
            depth: self.depth_plus_one - 1,
        };
        self.at = hub.parent;
        self.port = hub.port_id;
        self.depth_plus_one = socket.depth;
        Some(socket)
    }
}
