// Endpoints and their rings.
ghost use Rattle.std.specs.Prelude.{◌≡◌, ◌≤◌, take};
ghost use Rattle.record_endpoint.specs.Order.{PLACES};

use super::order::PLACES;

// Endpoints and their rings side by side, by rising address: arrays beside their count, since the layer has no heap.
#[derive(Clone, Copy)]
pub struct Queues {
    pub dcis: [u8; PLACES],
    pub rings: [u64; PLACES],
    pub count: usize,
    pub ghost fits: { count ≤ PLACES },
}

impl Queues {
    pub const NONE: Queues = Queues {
        dcis: [0; PLACES],
        rings: [0; PLACES],
        count: 0,
    };

    // the addresses
    pub fn dcis(&self) -> &[u8]
        ensures { result.now ≡ take self.now.count self.now.dcis }
    {
        &self.dcis[..self.count]
    }

    // their rings
    pub fn rings(&self) -> &[u64]
        ensures { result.now ≡ take self.now.count self.now.rings }
    {
        &self.rings[..self.count]
    }
}
