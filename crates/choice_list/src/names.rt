// The names, each once.
ghost use Rattle.std.specs.Prelude.{◌≤◌};
ghost use Rattle.choice_search.specs.Room.{NAMES};

use choice_search::NAMES;

// The first `count` are distinct.
#[derive(Clone, Copy)]
pub struct Names {
    pub names: [u8; NAMES],
    pub count: usize,
    pub ghost fits: { count ≤ NAMES },
}

impl Names {
    ghost use Rattle.std.specs.Prelude.{◌≡◌, [], take, length};
    ghost use Rattle.choice_list.specs.Tried.{new_names, place_of};
    ghost use Rattle.choice_search.specs.Search.{turned};

    // Of up to eight names each once, where it stands first.
    pub fn of(names: &[u8]) -> Names
        requires { length names.now ≤ NAMES }
        ensures { take result.count result.names ≡ new_names [] names.now }
    {
        let mut once = [0u8; NAMES];
        let mut count = 0;
        for &name in names {
            if !once[..count].contains(&name) {
                once[count] = name;
                count += 1;
            }
        }
        Names { names: once, count }
    }

    // The place that was picked for a name, 0 where it is none of them. The picks are the last name's first.
    pub fn place_of(&self, picks: [u8; NAMES], name: u8) -> u8
        ensures { result ≡ place_of (take self.now.count self.now.names) (turned picks self.now.count) name }
    {
        for (i, &x) in self.names[..self.count].iter().enumerate() {
            if x == name {
                return picks[self.count - 1 - i];
            }
        }
        0
    }
}
