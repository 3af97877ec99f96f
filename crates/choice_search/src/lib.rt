// The earliest pick of one candidate for each of some names, with no address in two: a search that goes back, past the names that had no part in
// a failure.
#![tactic(auto)]

mod by_name;

ghost use Rattle.std.specs.Prelude.{◌≡◌, ◌≤◌, length};
ghost use Rattle.choice_search.specs.Room.{NAMES};
ghost use Rattle.choice_search.specs.Search.{grouped, OneOf, FoundWithin, PickedAs};

pub use by_name::{CANDIDATES, Candidate};

// How many names there may be.
pub const NAMES: usize = 8;

// How many blames of a name's candidates are remembered.
const REMEMBERED: usize = 16;

// One address of a set.
fn one_of(addresses: u32) -> u32
    requires { addresses ≡ 0 → ⊥ }
    ensures { OneOf addresses result }
{
    1 << addresses.trailing_zeros()
}

// One of some sets that is not empty and is within another; 0 if there is none.
fn first_within(sets: &[u32], addresses: u32) -> u32
    ensures { FoundWithin sets.now addresses result }
{
    for &s in sets {
        if s != 0 && s | addresses == addresses {
            return s;
        }
    }
    0
}

// The places picked, the last name's first; or addresses that are to blame: wherever these are taken, none can be picked. The candidates of a
// name stand behind those of the names before it: of each name it is said how many it has, in the order in which they are tried.
pub fn pick_from(counts: &[usize], all: &[Candidate], taken: u32) -> Result<[u8; NAMES], u32>
    requires { length counts.now ≤ NAMES }
    ensures { PickedAs (grouped counts.now all.now) taken result }
{
    let [count, rest @ ..] = counts else {
        return Ok([0; NAMES]);
    };
    let end = (*count).min(all.len());
    let others = &all[end..];
    let mut blame = 0;
    // What was to blame where the rest failed after an earlier candidate: where all of it is taken again, the rest is not searched again.
    let mut blames = [0u32; REMEMBERED];
    for c in &all[..end] {
        let clash = c.addresses & taken;
        if clash != 0 {
            blame |= one_of(clash);
            continue;
        }
        let before = first_within(&blames, taken | c.addresses);
        if before != 0 {
            blame |= before & taken;
            continue;
        }
        match pick_from(rest, others, taken | c.addresses) {
            Ok(mut places) => {
                places[rest.len()] = c.place;
                return Ok(places);
            }
            Err(later) => {
                if later & c.addresses == 0 {
                    return Err(later);
                }
                blame |= later & taken;
                blames[c.place as usize % REMEMBERED] = later;
            }
        }
    }
    Err(blame)
}
