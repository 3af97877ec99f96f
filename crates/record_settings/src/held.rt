// The settings that a record holds.
ghost use Rattle.std.specs.Prelude.{◌≤◌};
ghost use Rattle.record_settings.specs.Room.{HELD-ROOM};

// How many settings a record has room for: one of each interface.
pub const HELD_ROOM: usize = 32;

// The first `count` interfaces and alternates. Two arrays of fixed size, since the record and its image have two. They are walked by
// index: an iterator of both, cut and zipped, would save two index expressions at each of four loops, and need a method with a contract.
#[derive(Clone, Copy)]
pub struct Settings {
    pub interfaces: [u8; HELD_ROOM],
    pub alternates: [u8; HELD_ROOM],
    pub count: usize,
    pub ghost fits: { count ≤ HELD-ROOM },
}

impl Settings {
    ghost use Rattle.std.specs.Prelude.{List, ◌≡◌, ◌++◌, ◌∷◌, [], ◌<◌, eqb, length, position, take};
    ghost use Rattle.record_settings.specs.Held.{Held, held_by, is_held, held_alternate, settings_sound, without_setting, with_setting, SettingsAs};

    pub const NONE: Settings = Settings {
        interfaces: [0; HELD_ROOM],
        alternates: [0; HELD_ROOM],
        count: 0,
    };

    // Whether an interface is held, whatever its alternate.
    pub fn is_held(&self, interface: u8) -> bool
        ensures { result ≡ is_held interface (held_by self.now) }
    {
        self.interfaces[..self.count].contains(&interface)
    }

    // Where an interface is.
    fn place_of(&self, interface: u8) -> Option<usize>
        ensures { result ≡ position (λ i. eqb i interface) (take self.now.count self.now.interfaces) }
    {
        self.interfaces[..self.count]
            .iter()
            .position(|&i| i == interface)
    }

    // The alternate that an interface holds.
    pub fn alternate_of(&self, interface: u8) -> Option<u8>
        ensures { result ≡ held_alternate interface (held_by self.now) }
    {
        let place = self.place_of(interface)?;
        Some(self.alternates[place])
    }

    // Whether the interfaces are distinct and lookup finds their alternates. A loop, since each interface is sought among those before it:
    // `all` over the indices has the same body in a closure.
    pub fn are_sound(&self, list: &[u64]) -> bool
        ensures { result ≡ settings_sound list.now (held_by self.now) }
    {
        for i in 0..self.count {
            let interface = self.interfaces[i];
            if self.interfaces[..i].contains(&interface) {
                return false;
            }
            let found = descriptor_list::find_interface_endpoints(
                list,
                interface,
                self.alternates[i],
            );
            if found.is_none() {
                return false;
            }
        }
        true
    }

    // One more at the end.
    fn push(&mut self, interface: u8, alternate: u8)
        requires { self.old.count < HELD-ROOM }
        ensures { (hs : List Held) → SettingsAs self.old hs → SettingsAs self.new (hs ++ (record { interface = interface; alternate = alternate } ∷ [])) }
    {
        self.interfaces[self.count] = interface;
        self.alternates[self.count] = alternate;
        self.count += 1;
    }

    // The settings without an interface's.
    pub fn without_setting(&self, interface: u8) -> Settings
        ensures { SettingsAs result (without_setting interface (held_by self.now)) }
    {
        let mut others = Settings::NONE;
        for i in 0..self.count {
            if self.interfaces[i] != interface {
                others.push(self.interfaces[i], self.alternates[i]);
            }
        }
        others
    }

    // The settings with an interface's as the last one, in place of the one that it held.
    pub fn with_setting(&self, interface: u8, alternate: u8) -> Settings
        requires { length (with_setting interface alternate (held_by self.now)) ≤ HELD-ROOM }
        ensures { SettingsAs result (with_setting interface alternate (held_by self.now)) }
    {
        let mut settings = self.without_setting(interface);
        settings.push(interface, alternate);
        settings
    }
}
