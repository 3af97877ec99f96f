// Marks on interface numbers.
ghost use Rattle.std.specs.Prelude.{◌≡◌, count_by};

// Which interface numbers were met, and how many they are. One mark for each number: without a heap there is no set.
#[derive(Drop)]
pub struct Marks {
    met: [bool; 256],
    pub count: usize,
    pub ghost counted: { count ≡ count_by (λ b. b) met },
}

impl Marks {
    ghost use Rattle.descriptor_raw.specs.Marked.{MarkedWith};

    pub const NONE: Marks = Marks {
        met: [false; 256],
        count: 0,
    };

    // Marks a number, and counts it where it had no mark.
    pub fn mark(&mut self, number: u8)
        ensures { MarkedWith number self.old self.new }
    {
        let at = number as usize;
        if !self.met[at] {
            self.met[at] = true;
            self.count += 1;
        }
    }
}
