// What a segmentation descriptor says that is not cancelled.
use units::{EventId, Mode, Ticks};

// What the delivery of a segment is restricted to.
#[derive(Clone, Copy)]
pub struct Restrictions {
    pub web_delivery_allowed_flag: bool,
    pub no_regional_blackout_flag: bool,
    pub archive_allowed_flag: bool,
    pub device_restrictions: u8,
}

// Which sub-segment this is, of how many.
#[derive(Clone, Copy)]
pub struct SubSegment {
    pub sub_segment_num: u8,
    pub sub_segments_expected: u8,
}

// A segmentation descriptor that is not cancelled (Table 20). Its delivery is not restricted where no restrictions are given.
#[derive(Clone, Copy)]
pub struct Segmentation {
    pub segmentation_event_id: EventId,
    pub mode: Mode,
    pub delivery: Option<Restrictions>,
    pub duration: Option<Ticks>,
    pub segmentation_upid_type: u8,
    pub segmentation_upid_length: u8,
    pub segmentation_type_id: u8,
    pub segment_num: u8,
    pub segments_expected: u8,
    pub sub_segments: Option<SubSegment>,
}
