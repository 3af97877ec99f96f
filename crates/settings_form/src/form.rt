// The bits of the new form: from each byte six bits are carried to the next.
ghost use Rattle.std.specs.Prelude.{◌+◌, ◌*◌, ◌/◌, ◌%◌, ◌≤◌, ◌<◌, ◌≡◌, true, length};
ghost use Rattle.std.proofs.lemmas.List.Edits.{sets};
ghost use Rattle.settings_form.specs.Form.{new_form, pairs_in, is_new_form};

// Writes the new form of a value and pairs.
pub fn put_form(value: u8, pairs: &[u8], bytes: &mut [u8])
    requires { (length pairs.now ≤ 64) × (66 ≤ length bytes.old) }
    ensures { bytes.new ≡ sets bytes.old 0 (new_form value pairs.now) }
{
    bytes[0] = value;
    let mut low = (pairs.len() / 2) as u8;
    for (i, b) in pairs.iter().enumerate() {
        bytes[i + 1] = low * 4 + *b / 64;
        low = *b % 64;
    }
    bytes[pairs.len() + 1] = low * 4;
}

// Whether bytes are a new form.
#[tactic(auto, using(crate::proofs::Read::form_tests))]
pub fn is_form(form: &[u8]) -> bool
    ensures { result ≡ is_new_form form.now }
{
    let n = form.len();
    2 <= n && form[1] as usize / 4 * 2 + 2 == n && form[n - 1] % 4 == 0
}

// Writes the pairs of a new form.
pub fn take_pairs(form: &[u8], pairs: &mut [u8])
    requires { (is_new_form form.now ≡ true) × (length form.now ≤ length pairs.old + 2) }
    ensures { pairs.new ≡ sets pairs.old 0 (pairs_in form.now) }
{
    for i in 0..form.len() - 2 {
        pairs[i] = form[i + 1] % 4 * 64 + form[i + 2] / 4;
    }
}
