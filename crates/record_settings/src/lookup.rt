// The endpoint words of a setting.
ghost use Rattle.std.specs.Prelude.{◌≡◌};
ghost use Rattle.record_settings.specs.Held.{setting_words};

// The endpoint words of a setting in a list of joined words; none where lookup finds none.
pub fn setting_words<'a>(list: &'a [u64], interface: u8, alternate: u8) -> &'a [u64]
    ensures { result.now ≡ setting_words list.now interface alternate }
{
    match descriptor_list::find_interface_endpoints(list, interface, alternate) {
        Some(words) => words.in_list(list),
        None => &[],
    }
}
