// The alternates that an interface may choose for a wanted polling period, as the search takes them.
ghost use Rattle.std.specs.Prelude.{◌≡◌, ◌≤◌, ◌<◌, ◌+◌, ◌++◌, length, take};
ghost use Rattle.descriptor_list.specs.Lookup.{of_interface};
ghost use Rattle.descriptor_list.specs.Valid.{LIST-ROOM};
ghost use Rattle.context_block.specs.Flags.{flags_of};
ghost use Rattle.choice_search.specs.Room.{CANDIDATES};
ghost use Rattle.choice_list.specs.Candidate.{first_length, is_short, all_short, words_at};
ghost use Rattle.choice_list.specs.Tried.{may_choose, candidates};

use choice_search::Candidate;
use descriptor::{TransferType, WordKind};

// What an array for candidates holds where none is put.
pub const NONE: Candidate = Candidate {
    place: 0,
    addresses: 0,
};

// How many words the first configuration has.
fn first_length(list: &[u64]) -> usize
    requires { length list.now ≤ LIST-ROOM }
    ensures { result ≡ first_length list.now }
{
    let [_, words @ ..] = list else {
        return 0;
    };
    descriptor_configuration::configuration_length(words) + 1
}

// Whether an endpoint word, if it is an interrupt one, has a context interval no longer than one.
#[tactic(auto, unfolding(crate::specs::Candidate::is_short, crate::specs::Candidate::short_as, descriptor::specs::Endpoint::xhci_interval))]
fn is_short(w: u64, speed: u8, longest: u32) -> bool
    ensures { result ≡ is_short speed longest w }
{
    let e = descriptor::endpoint_descriptor(w);
    let t = e.transfer_type;
    match t {
        TransferType::Interrupt => {
            let interval = descriptor_periodic::calculate_xhci_interval(e.interval, t, speed);
            interval as u32 <= longest
        }
        _ => true,
    }
}

// The same for each word.
fn all_short(words: &[u64], speed: u8, longest: u32) -> bool
    ensures { result ≡ all_short speed longest words.now }
{
    words.iter().all(|&w| is_short(w, speed, longest))
}

// Whether a word is an alternate of an interface.
#[tactic(auto, using(descriptor::proofs::Kind::kind_test), unfolding(descriptor_list::specs::Lookup::of_interface))]
fn of_interface(w: u64, interface: u8) -> bool
    ensures { result ≡ of_interface interface w }
{
    descriptor::word_kind(w) == Some(WordKind::Alternate)
        && descriptor::interface_number(w) == interface
}

// Whether an interface may choose the word at a place, wherever that is.
fn may_choose(list: &[u64], speed: u8, longest: u32, interface: u8, place: usize) -> bool
    requires { place < length list.now }
    ensures { result ≡ may_choose list.now speed longest interface place }
{
    let w = list[place];
    if !of_interface(w, interface) {
        return false;
    }
    let alternate = descriptor::alternate_setting(w);
    let Some(found) = descriptor_list::find_interface_endpoints(list, interface, alternate) else {
        return false;
    };
    found.start == place + 1 && all_short(found.in_list(list), speed, longest)
}

// The addresses of the alternate word at a place, a bit for each Dci.
fn addresses_at(list: &[u64], interface: u8, place: usize) -> u32
    requires { place < length list.now }
    ensures { result ≡ flags_of (words_at list.now interface place) }
{
    let alternate = descriptor::alternate_setting(list[place]);
    context_block::word_flags(record_settings::setting_words(list, interface, alternate))
}

// Puts the candidates of an interface into an array, from an index on and in the order of the list; says where they end.
pub fn put_candidates(
    list: &[u64],
    speed: u8,
    longest: u32,
    interface: u8,
    all: &mut [Candidate],
    from: usize,
) -> usize
    requires { (length list.now ≤ LIST-ROOM) × ((length all.old ≡ CANDIDATES) × (from + length (candidates list.now speed longest interface) ≤ CANDIDATES)) }
    ensures { (result ≡ from + length (candidates list.now speed longest interface))
        × (take result all.new ≡ take from all.old ++ candidates list.now speed longest interface) }
{
    let mut count = from;
    for place in 0..first_length(list) {
        if may_choose(list, speed, longest, interface, place) {
            all[count] = Candidate {
                place: place as u8,
                addresses: addresses_at(list, interface, place),
            };
            count += 1;
        }
    }
    count
}
