// The routes of all slots: the ring that each endpoint's completions go to (transfer.rs of the original).
#![tactic(auto)]

ghost use Rattle.std.specs.Prelude.{◌≡◌, [], get_or, set};
ghost use Rattle.transfer.specs.Routes.{route_index, queues, registered, with_registered, old_match, new_free, published, replaced, with_replaced, without_slot};

use def::{Dci, SlotId};

#[derive(Clone, Copy, PartialEq, Eq)]
pub enum RouteError {
    InvalidEndpoint,
    QueueFull,
}

// Where the route of a slot's endpoint stands in the table.
pub fn route_index(slot: SlotId, dci: Dci) -> usize
    ensures { result ≡ route_index slot.0 dci.0 }
{
    let s = slot.0 as usize;
    let d = dci.0 as usize;
    32 * s + d
}

// A word past the end reads as 0.
fn word_at(words: &[u64], i: usize) -> u64
    ensures { result ≡ get_or words.now i 0 }
{
    words.get(i).copied().unwrap_or(0)
}

// A word past the end is not written.
fn put_word(words: &mut [u64], i: usize, word: u64)
    ensures { words.new ≡ set words.old i word }
{
    if i < words.len() {
        words[i] = word;
    }
}

// Gives an endpoint that has no route its ring; a word past the end is not written.
pub fn register_queue(
    routes: &mut [u64],
    slot: SlotId,
    dci: Dci,
    ring: u64,
) -> Result<(), RouteError>
    ensures { (result ≡ registered routes.old slot.0 dci.0) × (routes.new ≡ with_registered routes.old slot.0 dci.0 ring) }
{
    let i = route_index(slot, dci);
    if word_at(routes, i) != 0 {
        return Err(RouteError::QueueFull);
    }
    put_word(routes, i, ring);
    Ok(())
}

// Whether each old endpoint's route is its ring.
fn old_match(routes: &[u64], slot: SlotId, dcis: &[u8], rings: &[u64]) -> bool
    ensures { result ≡ old_match routes.now slot.0 (queues dcis.now rings.now) }
{
    dcis.iter().enumerate().all(|(i, &dci)| word_at(routes, route_index(slot, Dci(dci)))
        == word_at(rings, i))
}

// Whether each new endpoint's route is none, its own ring already, or an old endpoint's.
fn new_free(routes: &[u64], slot: SlotId, old_dcis: &[u8], dcis: &[u8], rings: &[u64]) -> bool
    ensures { result ≡ new_free routes.now slot.0 (queues old_dcis.now []) (queues dcis.now rings.now) }
{
    dcis.iter().enumerate().all(|(i, &dci)| {
        let word = word_at(routes, route_index(slot, Dci(dci)));
        word == 0 || word == word_at(rings, i) || old_dcis.contains(&dci)
    })
}

// Writes each endpoint's ring, or 0 where there is none; a word past the end is not written.
fn put_routes(routes: &mut [u64], slot: SlotId, dcis: &[u8], rings: &[u64])
    ensures { routes.new ≡ published routes.old slot.0 (queues dcis.now rings.now) }
{
    for (i, &dci) in dcis.iter().enumerate() {
        put_word(routes, route_index(slot, Dci(dci)), word_at(rings, i));
    }
}

// Takes every route of a slot out; a word past the end is not written.
pub fn clear_slot(routes: &mut [u64], slot: SlotId)
    ensures { routes.new ≡ without_slot routes.old slot.0 }
{
    for dci in 0..32 {
        put_word(routes, route_index(slot, Dci(dci)), 0);
    }
}

// Takes the old endpoints' routes out and puts the new ones in, or refuses and changes nothing. Dcis and rings are lists apart, as its
// callers' arrays are: a struct of two lent lists, made for this call alone, is no plainer.
pub fn replace_queues(
    routes: &mut [u64],
    slot: SlotId,
    old_dcis: &[u8],
    old_rings: &[u64],
    new_dcis: &[u8],
    new_rings: &[u64],
) -> Result<(), RouteError>
    ensures { (result ≡ replaced routes.old slot.0
        (queues old_dcis.now old_rings.now) (queues new_dcis.now new_rings.now))
        × (routes.new ≡ with_replaced routes.old slot.0
        (queues old_dcis.now old_rings.now) (queues new_dcis.now new_rings.now)) }
{
    if !old_match(routes, slot, old_dcis, old_rings) {
        return Err(RouteError::InvalidEndpoint);
    }
    if !new_free(routes, slot, old_dcis, new_dcis, new_rings) {
        return Err(RouteError::QueueFull);
    }
    put_routes(routes, slot, old_dcis, &[]);
    put_routes(routes, slot, new_dcis, new_rings);
    Ok(())
}
