// The choice.
ghost use Rattle.std.specs.Prelude.{◌≡◌, ◌≤◌, true, length, map, take};
ghost use Rattle.laws.specs.Distinct.{distinct};
ghost use Rattle.descriptor_list.specs.Valid.{LIST-ROOM};
ghost use Rattle.descriptor_list.specs.Companions.{joined};
ghost use Rattle.choice_search.specs.Room.{NAMES, CANDIDATES};
ghost use Rattle.choice_search.specs.Search.{grouped, turned};
ghost use Rattle.choice_list.specs.Choice.{alternate_at};
ghost use Rattle.choice_list.specs.Chosen.{Refused, ChosenIn, AlternatesAs};
ghost use Rattle.choice_list.specs.Tried.{candidates, place_of};

use super::candidate;
use super::names::Names;
use choice_search::{CANDIDATES, Candidate, NAMES};
use descriptor_list::LIST_ROOM;

// 0 and an alternate for each name, 0 past them; or 12, 29 or 30 and zeros.
#[repr(C)]
#[derive(Clone, Copy)]
pub struct Chosen {
    pub answer: u32,
    pub alternates: [u8; NAMES],
}

// No names were chosen for.
pub fn refused(answer: u32) -> Chosen
    ensures { Refused answer result }
{
    Chosen {
        answer,
        alternates: [0; NAMES],
    }
}

// Puts the candidates of each name, in a list of joined words, behind those of the names before it; says how many each has.
fn all_candidates(
    list: &[u64],
    speed: u8,
    longest: u32,
    names: &[u8],
    all: &mut [Candidate],
) -> [usize; NAMES]
    requires { (length list.now ≤ LIST-ROOM) × ((length names.now ≤ NAMES) × ((distinct names.now ≡ true) × (length all.old ≡ CANDIDATES))) }
    ensures { grouped (take (length names.now) result) all.new ≡ map (candidates list.now speed longest) names.now }
{
    let mut counts = [0usize; NAMES];
    let mut end = 0;
    for (i, &name) in names.iter().enumerate() {
        let from = end;
        end = candidate::put_candidates(list, speed, longest, name, all, from);
        counts[i] = end - from;
    }
    counts
}

// The same of a list; its joined copy is gone with the return.
#[inline(never)]
fn candidates_of(
    list: &[u32],
    speed: u8,
    longest: u32,
    names: &[u8],
    all: &mut [Candidate],
) -> [usize; NAMES]
    requires { (length list.now ≤ LIST-ROOM) × ((length names.now ≤ NAMES) × ((distinct names.now ≡ true) × (length all.old ≡ CANDIDATES))) }
    ensures { grouped (take (length names.now) result) all.new ≡ map (candidates (joined list.now) speed longest) names.now }
{
    let mut words = [0; LIST_ROOM];
    let count = descriptor_list::join(list, &mut words);
    all_candidates(&words[..count], speed, longest, names, all)
}

// The alternate of the word at a place.
fn alternate_at(list: &[u64], place: usize) -> u8
    ensures { result ≡ alternate_at list.now place }
{
    descriptor::alternate_setting(list.get(place).copied().unwrap_or(0))
}

// The alternate of each name, at the place that was picked for it.
fn joined_alternates(list: &[u64], names: &[u8], once: &Names, picks: [u8; NAMES]) -> [u8; NAMES]
    requires { length names.now ≤ NAMES }
    ensures { AlternatesAs (map (λ x. alternate_at list.now (place_of (take once.now.count once.now.names) (turned picks once.now.count) x)) names.now) result }
{
    let mut alternates = [0u8; NAMES];
    for (j, &name) in names.iter().enumerate() {
        alternates[j] = alternate_at(list, once.place_of(picks, name) as usize);
    }
    alternates
}

// The same of a list, as with the candidates.
#[inline(never)]
fn alternates_of(list: &[u32], names: &[u8], once: &Names, picks: [u8; NAMES]) -> [u8; NAMES]
    requires { (length list.now ≤ LIST-ROOM) × (length names.now ≤ NAMES) }
    ensures { AlternatesAs (map (λ x. alternate_at (joined list.now) (place_of (take once.now.count once.now.names) (turned picks once.now.count) x)) names.now) result }
{
    let mut words = [0; LIST_ROOM];
    let count = descriptor_list::join(list, &mut words);
    joined_alternates(&words[..count], names, once, picks)
}

// The first choice for up to eight names.
pub fn choose_in(list: &[u32], speed: u8, longest: u32, names: &[u8]) -> Chosen
    requires { (length list.now ≤ LIST-ROOM) × (length names.now ≤ NAMES) }
    ensures { ChosenIn (joined list.now) speed longest names.now result }
{
    let once = Names::of(names);
    let mut all = [candidate::NONE; CANDIDATES];
    let counts = candidates_of(list, speed, longest, &once.names[..once.count], &mut all);
    match choice_search::pick_from(&counts[..once.count], &all, 0) {
        Ok(picks) => Chosen {
            answer: 0,
            alternates: alternates_of(list, names, &once, picks),
        },
        Err(_) => refused(30),
    }
}
