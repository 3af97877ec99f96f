// Why a claim, or a commit, got its answer: from what it left, which is its record, its answer, the words that it logged, and the outcomes.
#![tactic(auto)]

ghost use Rattle.std.specs.Prelude.{◌≡◌, MatchOption, true, false};
ghost use Rattle.record_settings.specs.Match.{address_free};
ghost use Rattle.reason.specs.Reason.{owner_of, first_owned, owned_reason, first_failed, claim_reason};

use device::Device;
use record_endpoint::EndpointMap;
use record_settings::SettingWords;

#[derive(Clone, Copy)]
pub enum Reason {
    // it is accepted
    Nothing,
    // the alternate that is missing
    Alternate { interface: u8, alternate: u8 },
    // an endpoint word of the list whose address another interface owns
    Endpoint { word: u32, owner: u8 },
    // fewer free rings than endpoint words
    Rings,
    // a command that failed: its place in the log, and its word there
    Command { place: usize, word: u32 },
    // the answer's number says it all
    Number(u32),
}

// The interface that owns the address of an endpoint word, if it is another.
fn other_owner(word: u64, interface: u8, c: &EndpointMap) -> Option<u8>
    ensures { MatchOption result (address_free word interface c.now ≡ true)
        (λ owner. (address_free word interface c.now ≡ false) × (owner ≡ owner_of word c.now)) }
{
    let place = record_endpoint::place_of(descriptor::endpoint_descriptor(word).address)?;
    if c.rings[place] == 0 || c.owners[place] == interface {
        return None;
    }
    Some(c.owners[place])
}

// The first endpoint word whose address another interface owns.
fn first_owned(words: &[u64], interface: u8, c: &EndpointMap) -> Reason
    ensures { result ≡ first_owned words.now interface c.now }
{
    for &word in words {
        if let Some(owner) = other_owner(word, interface, c) {
            return Reason::Endpoint {
                word: (word % descriptor::COMPANION_LSB) as u32,
                owner,
            };
        }
    }
    Reason::Number(9)
}

// The same of the words of an alternate, by a record. One that is not sound refuses no claim for an owner.
fn owned_reason(d: Device, interface: u8, alternate: u8) -> Reason
    ensures { result ≡ owned_reason d interface alternate }
{
    if !d.sound() {
        return Reason::Number(9);
    }
    let setting = SettingWords::of_setting(&d.list[..d.list_len], interface, alternate);
    let c = record_endpoint::endpoint_map_of(&d.eps[..d.ep_count], &d.ep_interfaces[..d.ep_count]);
    first_owned(setting.words(), interface, &c)
}

// The first command of a log whose outcome is not 0; where there is none, the number.
fn first_failed(log: &[u32], outcomes: &[u8], number: u32) -> Reason
    ensures { result ≡ first_failed outcomes.now 0 log.now number }
{
    for (place, &word) in log.iter().enumerate() {
        if outcomes.get(place).copied().unwrap_or(0) != 0 {
            return Reason::Command { place, word };
        }
    }
    Reason::Number(number)
}

// Why the claim of an interface's alternate, or the commit of an ask for it, got the answer of this number.
pub fn claim_reason(
    d: Device,
    interface: u8,
    alternate: u8,
    number: u32,
    log: &[u32],
    outcomes: &[u8],
) -> Reason
    ensures { result ≡ claim_reason d interface alternate number log.now outcomes.now }
{
    match number {
        0 => Reason::Nothing,
        8 => Reason::Alternate {
            interface,
            alternate,
        },
        9 => owned_reason(d, interface, alternate),
        13 | 14 => first_failed(log, outcomes, number),
        21 => Reason::Rings,
        _ => Reason::Number(number),
    }
}
