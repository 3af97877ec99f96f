// A bring-up: what it reads takes the log alone; where that ends it, how it ended is the error.
ghost use Rattle.std.specs.Prelude.{◌≡◌, true, List, ℕ, ◌+◌, ◌≤◌, length};
ghost use Rattle.def.specs.Speed.{exponent_ok};
ghost use Rattle.command.specs.Command.{LOG-ROOM};
ghost use Rattle.descriptor_list.specs.Valid.{begins_with_configuration, configurations};
ghost use Rattle.descriptor_list.specs.Companions.{valid_at, Joinable};
ghost use Rattle.command.specs.declared.Command.TheVariants as commands;
ghost use Rattle.command.specs.Course.{played};
ghost use Rattle.context.specs.Place.{Spaced};
ghost use Rattle.record_ring.specs.Store.{least};
ghost use Rattle.course_steps.specs.End.{answer_of};
ghost use Rattle.course_init.specs.Reading.{bring_up_of, nothing_read, leaves_read};
ghost use Rattle.course_init.specs.Init.{step, bring_up_configuration, bring_up_packet, bring_up_header, bring_up_address};
ghost use Rattle.course_init.specs.Parts.{or_ended, bring_up_left};

use answer::Answer;
use command::{Command, Sent};
use context_writer::address_context;
use course_set_configuration::{SettingsArgs, run_set_configuration};
use def::SlotId;
use record_endpoint::Queues;
use record_settings::Settings;

// The device's place, and what is read from it: `header` bytes with the packet size, and the configuration value. Copies alone: rings,
// hubs and list are lent beside it, so that no lifetime stands in its type. So are the spacing and the lowest ring, found once for all.
#[derive(Clone, Copy)]
pub struct BringUpArgs {
    pub slot: SlotId,
    pub max_slots: usize,
    pub speed: u8,
    pub parent: Option<usize>,
    pub port: u8,
    pub root_port: u8,
    pub header: usize,
    pub packet: u8,
    pub value: u8,
}

// How a bring-up ended: the configuration value, if it was read or set, and how many configurations were read.
#[derive(Clone, Copy)]
pub struct InitEnd {
    pub answer: Answer,
    pub count: usize,
    pub value: Option<u8>,
    pub configurations: usize,
}

// How it stands where nothing was read.
fn unread(answer: Answer, count: usize) -> InitEnd
    ensures { result ≡ record { answer = answer; count = count; value = None; configurations = 0 } }
{
    InitEnd {
        answer,
        count,
        value: None,
        configurations: 0,
    }
}

// How it stands after a command before anything was read.
fn before_reading(s: Sent, count: usize) -> InitEnd
    ensures { result ≡ record { answer = answer_of s; count = count; value = None; configurations = 0 } }
{
    unread(course_steps::answer_of(s), count)
}

// How it stands after a command once the value was read.
fn after_reading(s: Sent, count: usize, value: u8, configurations: usize) -> InitEnd
    ensures { result ≡ record { answer = answer_of s; count = count; value = Some value; configurations = configurations } }
{
    InitEnd {
        answer: course_steps::answer_of(s),
        count,
        value: Some(value),
        configurations,
    }
}

// Addresses the device, whose control route is registered, reads it and sets its first configuration, if it has one.
pub fn address(
    ctx: &mut [u8],
    routes: &mut [u64],
    log: &mut [u32],
    outcomes: &[u8],
    a: BringUpArgs,
    spacing: usize,
    ring: u64,
    hubs: &[u64],
    list: &[u32],
) -> InitEnd
    requires spaced { Spaced spacing (length ctx.old) }
    requires in_bounds { LOG-ROOM ≤ length log.old }
    requires list_value { valid_at a.speed list.now ≡ true }
    ensures { (rings : List ℕ) → ring ≡ least rings → leaves_read result list.now ctx.new routes.new log.new
        ≡ played outcomes.now 0
        (bring_up_address (bring_up_of a rings hubs.now list.now) spacing ctx.old routes.old) log.old }
{
    let path = hub::route_string(hubs, a.parent, a.port);
    let translator = hub::transaction_translator(a.speed, hubs, a.parent, a.port);
    address_context(ctx, spacing, a.speed, path, translator, a.root_port, ring);
    if let Err(end) = read_header(log, outcomes, a) {
        return end;
    }
    context_writer::setup_max_packet(ctx, spacing, a.speed, a.packet);
    match read_descriptors(log, outcomes, a, list) {
        Ok(read) => set_first(ctx, routes, log, outcomes, read, a, spacing, list),
        Err(end) => end,
    }
}

// Sends Address, and reads eight bytes of the device descriptor, the packet size among them; where the bring-up ends, how.
fn read_header(log: &mut [u32], outcomes: &[u8], a: BringUpArgs) -> Result<(), InitEnd>
    requires { LOG-ROOM ≤ length log.old }
    ensures packet_value { result ≡ Ok tt → exponent_ok a.speed a.packet ≡ true }
    ensures log_value { (rings hubs list ctx routes : List ℕ) (spacing : ℕ) → begins_with_configuration list ≡ true →
        played outcomes.now 0 (step commands.Address nothing_read ctx routes (bring_up_header (bring_up_of a rings hubs list) spacing ctx routes))
        log.old
        ≡ or_ended result list ctx routes log.new
        (λ u. played outcomes.now 2 (bring_up_packet (bring_up_of a rings hubs list) spacing ctx routes) log.new) }
{
    let address = command::send(log, outcomes, 0, Command::Address);
    let Sent::Done = address else {
        return Err(before_reading(address, 1));
    };
    let header = command::send(log, outcomes, 1, Command::ReadHeader);
    let Sent::Done = header else {
        return Err(before_reading(header, 2));
    };
    if a.header != 8 {
        return Err(unread(Answer::ShortHeader, 2));
    }
    if !def::exponent_ok(a.speed, a.packet) {
        return Err(unread(Answer::PacketExponent, 2));
    }
    Ok(())
}

// Sends the packet size's Evaluate, and reads the value of the configuration that is set now, the device descriptor and each
// configuration descriptor: how many these are; where the bring-up ends, how.
fn read_descriptors(
    log: &mut [u32],
    outcomes: &[u8],
    a: BringUpArgs,
    list: &[u32],
) -> Result<usize, InitEnd>
    requires in_bounds { LOG-ROOM ≤ length log.old }
    requires list_value { valid_at a.speed list.now ≡ true }
    ensures all_read { (n : ℕ) → result ≡ Ok n → n ≡ configurations list.now }
    ensures log_value { (rings hubs ctx routes : List ℕ) (spacing : ℕ) →
        played outcomes.now 2
        (step commands.Evaluate nothing_read ctx routes (bring_up_configuration (bring_up_of a rings hubs list.now) spacing ctx routes))
        log.old
        ≡ or_ended result list.now ctx routes log.new
        (λ n. played outcomes.now (5 + n) (bring_up_left (bring_up_of a rings hubs list.now) spacing 0 n ctx routes) log.new) }
{
    let packet = command::send(log, outcomes, 2, Command::Evaluate);
    let Sent::Done = packet else {
        return Err(before_reading(packet, 3));
    };
    let value = command::send(log, outcomes, 3, Command::ReadConfiguration);
    let Sent::Done = value else {
        return Err(before_reading(value, 4));
    };
    let device = command::send(log, outcomes, 4, Command::ReadDevice);
    let Sent::Done = device else {
        return Err(after_reading(device, 5, a.value, 0));
    };
    let all = descriptor_list::count_configurations(list);
    for i in 0..all {
        let s = command::send(log, outcomes, 5 + i, Command::ReadConfig(i as u8));
        let Sent::Done = s else {
            return Err(after_reading(s, 6 + i, a.value, i));
        };
    }
    Ok(all)
}

// Sets the first configuration, if the device has one; no interface holds a setting yet.
fn set_first(
    ctx: &mut [u8],
    routes: &mut [u64],
    log: &mut [u32],
    outcomes: &[u8],
    read: usize,
    a: BringUpArgs,
    spacing: usize,
    list: &[u32],
) -> InitEnd
    requires spaced { Spaced spacing (length ctx.old) }
    requires joinable { Joinable list.now }
    requires all_read { (read ≡ configurations list.now) × ((read ≤ 8) × (LOG-ROOM ≤ length log.old)) }
    ensures { (rings hubs : List ℕ) →
        leaves_read result list.now ctx.new routes.new log.new
        ≡ played outcomes.now (5 + read)
        (bring_up_left (bring_up_of a rings hubs list.now) spacing 0 read ctx.old routes.old) log.old }
{
    if list.len() == 0 {
        return after_reading(Sent::Done, 5 + read, a.value, read);
    }
    let settings = SettingsArgs {
        slot: a.slot,
        spacing,
        speed: a.speed,
        value: descriptor::configuration_value(list[0] as u64),
        held: Settings::NONE,
        old: Queues::NONE,
    };
    let e = run_set_configuration(ctx, routes, log, outcomes, 5 + read, settings, list);
    let mut r = InitEnd {
        answer: e.answer,
        count: e.count,
        value: Some(a.value),
        configurations: read,
    };
    if let Answer::Accepted = e.answer {
        r.value = Some(settings.value);
    }
    r
}
