// What a known descriptor says.
use segmentation_reading::Segmentation;
use units::{EventId, Ticks};

// A known descriptor (Table 16).
#[derive(Clone, Copy)]
pub enum Descriptor {
    // With its provider_avail_id.
    Avail(u32),
    Dtmf {
        preroll: u8,
        dtmf_count: u8,
    },
    Segmentation(Segmentation),
    CancelledSegmentation(EventId),
    Time {
        tai_seconds: u64,
        tai_ns: u32,
        utc_offset: u16,
    },
    // With its audio_count.
    Audio(u8),
}

// A component of a segmentation descriptor.
#[derive(Clone, Copy)]
pub struct SegmentationComponent {
    pub component_tag: u8,
    pub pts_offset: Ticks,
}

// A component of an audio descriptor (Table 28).
#[derive(Clone, Copy)]
pub struct AudioComponent {
    pub component_tag: u8,
    pub iso_code: u32,
    pub bit_stream_mode: u8,
    pub num_channels: u8,
    pub full_srvc_audio: bool,
}

// A part of the section: from a byte on, so many.
#[derive(Clone, Copy)]
pub struct Part {
    pub at: usize,
    pub length: usize,
}
