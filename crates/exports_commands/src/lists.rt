// The numbers of an insert and of an event, and those of their parts, put into a list from a place on. Each function answers the
// place after them.
ghost use Rattle.std.specs.Prelude.{◌≡◌, ◌+◌, ◌≤◌, length};
ghost use Rattle.wire.specs.Put.{put_place, put_into, Put};
ghost use Rattle.exports_commands.specs.Commands.{insert_numbers};
ghost use Rattle.exports_commands.specs.Events.{event_time_numbers, scheduled_numbers};

use command_reading::{EventTime, Insert, ScheduledEvent};

pub(crate) fn insert(list: &mut [u64], at: usize, x: Insert) -> usize
    requires { at + 13 ≤ length list.old }
    ensures { Put list.old at (insert_numbers x) result list.new }
{
    let id = x.splice_event_id;
    let n = wire::put(
        list,
        at,
        &[2, u64::from(id.0), wire::flag(x.out_of_network_indicator)],
    );
    let n = command_numbers::time(list, n, x.time);
    let n = wire::mode(list, n, x.mode);
    command_numbers::avails(list, n, x.avails)
}

fn event_time(list: &mut [u64], at: usize, x: EventTime) -> usize
    ensures { (result ≡ put_place list.old at (event_time_numbers x)) × (list.new ≡ put_into list.old at (event_time_numbers x)) }
{
    match x {
        EventTime::Program(utc) => wire::put(list, at, &[0, u64::from(utc)]),
        EventTime::Components(count) => wire::put(list, at, &[1, u64::from(count)]),
    }
}

pub(crate) fn scheduled(list: &mut [u64], at: usize, x: ScheduledEvent) -> usize
    requires { at + 11 ≤ length list.old }
    ensures { Put list.old at (scheduled_numbers x) result list.new }
{
    let id = x.splice_event_id;
    let n = wire::put(
        list,
        at,
        &[0, u64::from(id.0), wire::flag(x.out_of_network_indicator)],
    );
    let n = event_time(list, n, x.time);
    command_numbers::avails(list, n, x.avails)
}
