// A hub of 01's list, as its word of 64 bits.
ghost use Rattle.std.specs.Prelude.{◌≡◌};
ghost use Rattle.hub.specs.HubWord.{hub_at};

// A hub word taken apart.
#[derive(Clone, Copy)]
pub struct HubInfo {
    pub present: bool,
    // Two words and not an Option: a walk reads the parent index whether or not the flag stands.
    pub has_parent: bool,
    pub parent: usize,
    pub slot_id: u8,
    pub depth_plus_one: u8,
    pub speed: u8,
    pub port_id: u8,
    pub multi: bool,
    pub unused: u64,
}

// The weight of each field's lowest bit, most significant first.
const PRESENT: u64 = 0x8000_0000_0000_0000;

const HAS_PARENT: u64 = 0x4000_0000_0000_0000;

const PARENT: u64 = 0x0040_0000_0000_0000;

const SLOT_ID: u64 = 0x0000_4000_0000_0000;

const DEPTH_PLUS_ONE: u64 = 0x0000_0800_0000_0000;

const SPEED: u64 = 0x0000_0100_0000_0000;

const PORT_ID: u64 = 0x0000_0001_0000_0000;

const MULTI: u64 = 0x0000_0000_8000_0000;

// The hub at an index of the list; past its end, one with every field 0.
#[tactic(auto, unfolding(crate::specs::HubWord::hub_info, crate::specs::HubWord::hub_at))]
pub fn hub_at(hubs: &[u64], at: usize) -> HubInfo
    ensures { result ≡ hub_at hubs.now at }
{
    let w = hubs.get(at).copied().unwrap_or(0);
    HubInfo {
        present: w / PRESENT % 2 == 1,
        has_parent: w / HAS_PARENT % 2 == 1,
        parent: (w / PARENT % 256) as usize,
        slot_id: (w / SLOT_ID % 256) as u8,
        depth_plus_one: (w / DEPTH_PLUS_ONE % 8) as u8,
        speed: (w / SPEED % 8) as u8,
        port_id: (w / PORT_ID % 256) as u8,
        multi: w / MULTI % 2 == 1,
        unused: w % MULTI,
    }
}
