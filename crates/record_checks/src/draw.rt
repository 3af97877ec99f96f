// What a claim asks of a setting and of the number of free rings, and which it draws.
ghost use Rattle.std.specs.Prelude.{◌≡◌, [], ◌≤◌, length};
ghost use Rattle.answer.specs.Check.{Pass, CheckedAs};
ghost use Rattle.descriptor_list.specs.Valid.{LIST-ROOM};
ghost use Rattle.descriptor_list.specs.Companions.{joined};
ghost use Rattle.descriptor_list.specs.Lookup.{find_endpoints};
ghost use Rattle.record_ring.specs.Store.{lowest, free_rings};
ghost use Rattle.record_endpoint.specs.Order.{PLACES};
ghost use Rattle.record_endpoint.specs.Endpoint.{padded};
ghost use Rattle.record_endpoint.specs.EndpointMap.{pending_rings};
ghost use Rattle.record_checks.specs.Draw.{draw_check};

use answer::Answer;
use descriptor_list::{EndpointWords, LIST_ROOM};
use record_endpoint::{EndpointMap, PLACES};
use record_ring::GivenRings;

// Where the endpoint words of the setting stand among the joined words of the list; or 8, 9, 21.
#[inline(never)]
pub fn draw_check(
    list: &[u32],
    interface: u8,
    alternate: u8,
    c: EndpointMap,
    free: usize,
) -> Result<EndpointWords, Answer>
    requires { length list.now ≤ LIST-ROOM }
    ensures { CheckedAs result (draw_check (joined list.now) interface alternate c free Pass) (find_endpoints (joined list.now) interface alternate) }
{
    let mut words = [0; LIST_ROOM];
    let count = descriptor_list::join(list, &mut words);
    check_joined(&words[..count], interface, alternate, c, free)
}

// The same of the words themselves.
fn check_joined(
    list: &[u64],
    interface: u8,
    alternate: u8,
    c: EndpointMap,
    free: usize,
) -> Result<EndpointWords, Answer>
    ensures { CheckedAs result (draw_check list.now interface alternate c free Pass) (find_endpoints list.now interface alternate) }
{
    let Some(found) = descriptor_list::find_interface_endpoints(list, interface, alternate) else {
        return Err(Answer::NotFound);
    };
    if !record_settings::validate_endpoint_addresses(found.in_list(list), interface, c) {
        return Err(Answer::InvalidParameter);
    }
    if free < found.count {
        return Err(Answer::TooFewRings);
    }
    Ok(found)
}

// The lowest free rings for endpoint words, by place: of the given ones those that are not control's and not live.
pub fn drawn_rings(given: GivenRings, live: &[u64], control: u64, words: &[u64]) -> [u64; PLACES]
    requires { length words.now ≤ length (free_rings given.rings.now live.now control []) }
    ensures { result ≡ pending_rings words.now (lowest (length words.now) (free_rings given.entry.rings.now live.now control [])) }
{
    let free = record_ring::free_rings(given, live, control, &[]);
    record_endpoint::pending_rings(words, &free.rings[free.first..free.first + words.len()])
}

// The same rings in the order of the words, in front of an array.
pub fn drawn_in_order(given: GivenRings, live: &[u64], control: u64, words: &[u64]) -> [u64; PLACES]
    requires { (length words.now ≤ PLACES) × (length words.now ≤ length (free_rings given.rings.now live.now control [])) }
    ensures { result ≡ padded PLACES 0 (lowest (length words.now) (free_rings given.entry.rings.now live.now control [])) }
{
    let free = record_ring::free_rings(given, live, control, &[]);
    record_endpoint::padded(&free.rings[free.first..free.first + words.len()], 0)
}
