// Whether a record's endpoints are those of its held settings, compared by place.
ghost use Rattle.std.specs.Prelude.{◌≡◌};
ghost use Rattle.record_settings.specs.Held.{held_by, setting_words};
ghost use Rattle.record_settings.specs.Match.{places_of, owns_places, owners_held, endpoints_match, address_free, addresses_free};

use super::held::Settings;
use super::lookup;
use record_endpoint::{EndpointMap, PLACES};

// The places of endpoint words.
fn places_of(words: &[u64]) -> [bool; PLACES]
    ensures { result ≡ places_of words.now }
{
    let mut places = [false; PLACES];
    for &w in words {
        let e = descriptor::endpoint_descriptor(w);
        if let Some(place) = record_endpoint::place_of(e.address) {
            places[place] = true;
        }
    }
    places
}

// Whether an interface's endpoints are at the places of its setting's words.
fn owns_places(list: &[u64], interface: u8, alternate: u8, c: EndpointMap) -> bool
    ensures { result ≡ owns_places (setting_words list.now interface alternate) interface c }
{
    let places = places_of(lookup::setting_words(list, interface, alternate));
    (0..PLACES).all(|p| places[p] == (c.rings[p] != 0 && c.owners[p] == interface))
}

// Whether each endpoint's owner holds a setting.
fn owners_held(settings: &Settings, c: EndpointMap) -> bool
    ensures { result ≡ owners_held (held_by settings.now) c }
{
    (0..PLACES).all(|p| c.rings[p] == 0 || settings.is_held(c.owners[p]))
}

// Whether the endpoints are those of the held settings.
pub fn endpoints_match(list: &[u64], settings: &Settings, c: EndpointMap) -> bool
    ensures { result ≡ endpoints_match list.now (held_by settings.now) c }
{
    (0..settings.count).all(|i| owns_places(
        list,
        settings.interfaces[i],
        settings.alternates[i],
        c,
    )) && owners_held(settings, c)
}

// Whether a word's address has no endpoint of another interface.
fn address_free(w: u64, interface: u8, c: &EndpointMap) -> bool
    ensures { result ≡ address_free w interface c.now }
{
    match record_endpoint::place_of(descriptor::endpoint_descriptor(w).address) {
        Some(place) => c.rings[place] == 0 || c.owners[place] == interface,
        None => true,
    }
}

// The same for each word.
pub fn validate_endpoint_addresses(words: &[u64], interface: u8, c: EndpointMap) -> bool
    ensures { result ≡ addresses_free words.now interface c }
{
    words.iter().all(|&w| address_free(w, interface, &c))
}
