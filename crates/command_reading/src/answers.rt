// What a splice command says, by case.
use units::{EventId, Mode, Ticks};

// When a splice takes place (Table 14).
#[derive(Clone, Copy)]
pub enum SpliceTime {
    // At once: the command has no time.
    Immediate,
    // The command leaves it open, or each component has a time of its own.
    NotGiven,
    Given(Ticks),
}

// How long the break lasts (Table 15).
#[derive(Clone, Copy)]
pub struct BreakDuration {
    pub auto_return: bool,
    pub duration: Ticks,
}

// The end of an event (Tables 9 and 10).
#[derive(Clone, Copy)]
pub struct Avails {
    pub break_duration: Option<BreakDuration>,
    pub unique_program_id: u16,
    pub avail_num: u8,
    pub avails_expected: u8,
}

// A splice insert that is not cancelled (Table 10).
#[derive(Clone, Copy)]
pub struct Insert {
    pub splice_event_id: EventId,
    pub out_of_network_indicator: bool,
    pub time: SpliceTime,
    pub mode: Mode,
    pub avails: Avails,
}

// A command (Table 7).
#[derive(Clone, Copy)]
pub enum Command {
    Null,
    // With its splice_count.
    Schedule(u8),
    Insert(Insert),
    CancelledInsert(EventId),
    TimeSignal(SpliceTime),
    BandwidthReservation,
    // With its identifier, and how many bytes follow it.
    Private(u32, usize),
    // Of a type that the standard does not have.
    Unread,
}

// A component of a splice insert.
#[derive(Clone, Copy)]
pub struct InsertComponent {
    pub component_tag: u8,
    pub time: SpliceTime,
}

// When an event of a schedule takes place (Table 9).
#[derive(Clone, Copy)]
pub enum EventTime {
    // With its utc_splice_time.
    Program(u32),
    // With its component_count.
    Components(u8),
}

// An event of a schedule that is not cancelled (Table 9).
#[derive(Clone, Copy)]
pub struct ScheduledEvent {
    pub splice_event_id: EventId,
    pub out_of_network_indicator: bool,
    pub time: EventTime,
    pub avails: Avails,
}

// An event of a schedule.
#[derive(Clone, Copy)]
pub enum Event {
    Scheduled(ScheduledEvent),
    Cancelled(EventId),
}

// A component of a schedule's event.
#[derive(Clone, Copy)]
pub struct EventComponent {
    pub component_tag: u8,
    pub utc_splice_time: u32,
}
