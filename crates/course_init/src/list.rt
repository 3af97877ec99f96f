// The configurations of a descriptor list.
ghost use Rattle.std.specs.Prelude.{◌≡◌, ◌≤◌, length, take};
ghost use Rattle.course_init.specs.Reading.{first_configurations};

use descriptor::WordKind;

// How many words the first k configurations have.
pub fn count_words(list: &[u32], k: usize) -> usize
    ensures { (result ≤ length list.now) × (first_configurations k list.now ≡ take result list.now) }
{
    let mut left = k;
    for (i, &w) in list.iter().enumerate() {
        if descriptor::word_kind(w as u64) == Some(WordKind::Configuration) {
            if left == 0 {
                return i;
            }
            left -= 1;
        }
    }
    list.len()
}
