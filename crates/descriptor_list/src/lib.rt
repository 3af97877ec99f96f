// The configurations of a device as a list of descriptor words: which lists are valid, and lookup (device.rs of the original).
#![tactic(auto)]

ghost use Rattle.std.specs.Prelude.{◌≡◌, ◌+◌, ◌≤◌, not, ◌&&◌, ◌||◌, leb, length, take, drop};
ghost use Rattle.descriptor.specs.Word.{is_companion, companion_ok};
ghost use Rattle.descriptor_list.specs.Companions.{joined_word, joined, companions_ok, list_ok, mult_room, follows, paired, companions_fit, valid_at};
ghost use Rattle.descriptor_list.specs.Lookup.{endpoint_run, is_alternate, find_endpoints};
ghost use Rattle.descriptor_list.specs.Valid.{LIST-ROOM, words_ok, runs_fit, configurations, interfaces, valid_list};

mod joined;

use descriptor::WordKind;
pub use joined::join;

// How many words a list may have, and a record has room for.
pub const LIST_ROOM: usize = 256;

// Where the endpoint words of an alternate setting stand.
#[derive(Clone, Copy)]
pub struct EndpointWords {
    pub start: usize,
    pub count: usize,
}

impl EndpointWords {
    // The words themselves, of the list in which they stand.
    pub fn in_list<'a>(self, list: &'a [u64]) -> &'a [u64]
        requires { self.start + self.count ≤ length list.now }
        ensures { result.now ≡ take self.count (drop self.start list.now) }
    {
        &list[self.start..self.start + self.count]
    }
}

// How many endpoint words stand from an index on.
pub fn endpoint_run(list: &[u64], from: usize) -> usize
    ensures { result ≡ endpoint_run (drop from list.now) }
{
    list[from.min(list.len())..]
        .iter()
        .take_while(|w| descriptor::word_kind(**w) == Some(WordKind::Endpoint))
        .count()
}

#[tactic(auto, using(descriptor::proofs::Kind::kind_test), unfolding(crate::specs::Lookup::is_alternate, crate::specs::Lookup::of_interface))]
fn is_alternate(w: u64, interface: u8, alternate: u8) -> bool
    ensures { result ≡ is_alternate interface alternate w }
{
    descriptor::word_kind(w) == Some(WordKind::Alternate)
        && descriptor::interface_number(w) == interface
        && descriptor::alternate_setting(w) == alternate
}

// The endpoint words of the first alternate setting that matches, over all configurations.
pub fn find_interface_endpoints(list: &[u64], interface: u8, alternate: u8) -> Option<EndpointWords>
    ensures { result ≡ find_endpoints list.now interface alternate }
{
    let start = list
        .iter()
        .position(|w| is_alternate(*w, interface, alternate))?
        + 1;
    Some(EndpointWords {
        start,
        count: endpoint_run(list, start),
    })
}

pub fn count_configurations(list: &[u32]) -> usize
    ensures { result ≡ configurations list.now }
{
    list.iter()
        .filter(|w| descriptor::word_kind(**w as u64) == Some(WordKind::Configuration))
        .count()
}

// The same of joined words.
fn joined_configurations(list: &[u64]) -> usize
    ensures { result ≡ configurations list.now }
{
    list.iter()
        .filter(|w| descriptor::word_kind(**w) == Some(WordKind::Configuration))
        .count()
}

// The rules of the words, in a walk from the end of the list: the endpoint words that follow one are counted in run, and an
// interface is counted at its last alternate word, where it has no mark yet. By index: with `iter().rev()` it
// is no plainer, since each rule is about the words that follow an index. Marks and count stand here by themselves: with the `Marks` of
// crates/descriptor_raw, which a call of memset clears, a list takes 12 instructions more.
fn words_fit(list: &[u64]) -> bool
    ensures { result ≡ (words_ok list.now && (runs_fit list.now && leb (interfaces list.now) 32)) }
{
    let mut marks = [false; 256];
    let mut count = 0usize;
    let mut run = 0usize;
    for i in (0..list.len()).rev() {
        let w = list[i];
        if !descriptor::word_ok(w) {
            return false;
        }
        match descriptor::word_kind(w) {
            Some(WordKind::Configuration) => {
                if run != 0 {
                    return false;
                }
            }
            Some(WordKind::Alternate) => {
                if 30 < run {
                    return false;
                }
                run = 0;
                let interface = descriptor::interface_number(w) as usize;
                if !marks[interface] {
                    marks[interface] = true;
                    count += 1;
                }
            }
            Some(WordKind::Endpoint) => run += 1,
            None => return false,
        }
    }
    count <= 32
}

// Whether a list of joined words is valid.
#[tactic(auto, using(crate::proofs::Steps::valid_tests, crate::proofs::Steps::empty_valid, crate::proofs::Steps::begins, descriptor::proofs::Kind::kind_test))]
pub fn valid_list(list: &[u64]) -> bool
    ensures { result ≡ valid_list list.now }
{
    let Some(&first) = list.first() else {
        return true;
    };
    list.len() <= LIST_ROOM
        && descriptor::word_kind(first) == Some(WordKind::Configuration)
        && joined_configurations(list) <= 8
        && words_fit(list)
}

// A word, with the one directly behind it if they are an endpoint and its companion.
#[tactic(auto, using(descriptor::proofs::Kind::kind_test), unfolding(crate::specs::Companions::joined_word, descriptor::specs::Word::with_companion))]
fn joined_word(w: u32, next: u32) -> u64
    ensures { result ≡ joined_word w next }
{
    let (word, companion) = (w as u64, next as u64);
    if descriptor::word_kind(word) == Some(WordKind::Endpoint)
        && descriptor::is_companion(companion)
    {
        word + descriptor::COMPANION_LSB * companion
    } else {
        word
    }
}

// Whether the companions of a list may stand in one, and have no unused bit set.
fn companions_ok(list: &[u32], allowed: bool) -> bool
    ensures { result ≡ companions_ok allowed list.now }
{
    list.iter().all(|w| companion_passes(*w as u64, allowed))
}

fn companion_passes(w: u64, allowed: bool) -> bool
    ensures { result ≡ (not (is_companion w) || (allowed && companion_ok w)) }
{
    !descriptor::is_companion(w) || (allowed && descriptor::companion_ok(w))
}

// By itself, so that the joined copy is gone when it returns.
#[inline(never)]
fn joined_valid(list: &[u32]) -> bool
    requires { length list.now ≤ LIST-ROOM }
    ensures { result ≡ valid_list (joined list.now) }
{
    let mut words = [0; LIST_ROOM];
    let count = join(list, &mut words);
    valid_list(&words[..count])
}

// Whether a list is in order at a speed but for where its companions stand: any other gives 4.
#[tactic(auto, using(crate::proofs::Joins::ok_tests, crate::proofs::Joins::empty_ok, crate::proofs::Steps::begins, descriptor::proofs::Kind::kind_test))]
pub fn list_ok(list: &[u32], speed: u8) -> bool
    ensures { result ≡ list_ok speed list.now }
{
    let Some(&first) = list.first() else {
        return true;
    };
    list.len() <= LIST_ROOM
        && descriptor::word_kind(first as u64) == Some(WordKind::Configuration)
        && companions_ok(list, def::is_super(speed))
        && joined_valid(list)
}

// The type of an isochronous endpoint.
const ISOCHRONOUS: u64 = 1;

// The highest mult in an endpoint word's companion.
#[tactic(auto, unfolding(crate::specs::Companions::mult_room, descriptor::specs::Word::type_number))]
fn mult_room(w: u64) -> u8
    ensures { result ≡ mult_room w }
{
    if w / descriptor::TYPE_LSB % 4 == ISOCHRONOUS {
        2
    } else {
        0
    }
}

// Whether a word may stand directly behind another.
#[tactic(auto, using(descriptor::proofs::Kind::kind_test), unfolding(crate::specs::Companions::follows))]
fn may_follow(p: u64, w: u64) -> bool
    ensures { result ≡ follows p w }
{
    if descriptor::word_kind(p) == Some(WordKind::Endpoint) {
        descriptor::is_companion(w) && descriptor::companion_mult(w) <= mult_room(p)
    } else {
        !descriptor::is_companion(w)
    }
}

// Whether each endpoint word, and no other, has a companion directly behind it, with a mult in range.
fn companions_paired(list: &[u32]) -> bool
    ensures { result ≡ paired list.now }
{
    let mut last = 0u64;
    for &w in list {
        if !may_follow(last, w as u64) {
            return false;
        }
        last = w as u64;
    }
    descriptor::word_kind(last) != Some(WordKind::Endpoint)
}

// Whether the companions of a list are as its speed wants them: any other list gives 26.
#[tactic(auto, unfolding(crate::specs::Companions::companions_fit))]
pub fn companions_fit(list: &[u32], speed: u8) -> bool
    ensures { result ≡ companions_fit speed list.now }
{
    !def::is_super(speed) || companions_paired(list)
}

// Both: whether a list is valid at a speed.
#[tactic(auto, unfolding(crate::specs::Companions::valid_at))]
pub fn valid_at(list: &[u32], speed: u8) -> bool
    ensures { result ≡ valid_at speed list.now }
{
    list_ok(list, speed) && companions_fit(list, speed)
}
