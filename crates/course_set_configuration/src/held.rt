// The contexts of the two Configures: the endpoint words of all held settings dropped, or added again.
ghost use Rattle.std.specs.Prelude.{◌≡◌, length};
ghost use Rattle.descriptor_list.specs.Companions.{joined, Joinable};
ghost use Rattle.course_steps.specs.Arrays.{Room};
ghost use Rattle.course_set_configuration.specs.SetConfiguration.{settings_of, drop_context, restore_context};

use super::run::SettingsArgs;
use record_settings::SettingWords;

// What the first Configure is given: the endpoints of the held settings dropped.
pub fn prepare_drop(ctx: &mut [u8], a: SettingsArgs, list: &[u32])
    requires room { Room a.spacing (length ctx.old) a.old a.old }
    requires joinable { Joinable list.now }
    ensures { ctx.new ≡ drop_context (settings_of a (joined list.now)) ctx.old }
{
    context_writer::begin_configure(ctx, 0, 0);
    for i in 0..a.held.count {
        let setting = SettingWords::of_setting(list, a.held.interfaces[i], a.held.alternates[i]);
        context_writer::drop_endpoints(ctx, setting.words());
    }
    let entries = context_writer::highest_staying(ctx, a.old.dcis());
    context_writer::finish_configure(ctx, a.spacing, entries);
}

// What the Configure that undoes it is given: the endpoints added again, with their rings.
pub fn prepare_restore(ctx: &mut [u8], a: SettingsArgs, list: &[u32])
    requires room { Room a.spacing (length ctx.old) a.old a.old }
    requires joinable { Joinable list.now }
    ensures { ctx.new ≡ restore_context (settings_of a (joined list.now)) ctx.old }
{
    let dcis = a.old.dcis();
    let rings = a.old.rings();
    context_writer::begin_configure(ctx, 0, 0);
    let mut entries = context_writer::highest_staying(ctx, dcis);
    for i in 0..a.held.count {
        let setting = SettingWords::of_setting(list, a.held.interfaces[i], a.held.alternates[i]);
        let words = setting.words();
        context_writer::add_endpoints(ctx, a.spacing, a.speed, words, dcis, rings);
        entries = context_writer::highest_added(entries, words);
    }
    context_writer::finish_configure(ctx, a.spacing, entries);
}
