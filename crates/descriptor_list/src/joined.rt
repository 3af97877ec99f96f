// The words of a list with their companions: a copy of the whole list, so a function that has one stays a call of its own (`inline(never)`) and
// hands on no more of it than one setting's words.
ghost use Rattle.std.specs.Prelude.{◌≡◌, ◌≤◌, length, take};
ghost use Rattle.descriptor_list.specs.Valid.{LIST-ROOM};
ghost use Rattle.descriptor_list.specs.Companions.{joined};

// Puts them into an array; says how many they are.
pub fn join(list: &[u32], words: &mut [u64]) -> usize
    requires { (length list.now ≤ LIST-ROOM) × (length words.old ≡ LIST-ROOM) }
    ensures { (result ≤ LIST-ROOM) × (take result words.new ≡ joined list.now) }
{
    let mut count = 0;
    for (i, &w) in list.iter().enumerate() {
        if !descriptor::is_companion(w as u64) {
            words[count] = super::joined_word(w, list.get(i + 1).copied().unwrap_or(0));
            count += 1;
        }
    }
    count
}
