// The numbers of a segmentation descriptor and of its parts, put into a list from a place on. Each function answers the
// place after them.
ghost use Rattle.std.specs.Prelude.{◌≡◌, ◌+◌, ◌≤◌, length};
ghost use Rattle.wire.specs.Put.{put_place, put_into, Put};
ghost use Rattle.segmentation_numbers.specs.Numbers.{delivery_numbers, duration_numbers, sub_segment_numbers, segmentation_numbers};

use segmentation_reading::{Restrictions, Segmentation, SubSegment};
use units::Ticks;

fn delivery(list: &mut [u64], at: usize, restrictions: Option<Restrictions>) -> usize
    ensures { (result ≡ put_place list.old at (delivery_numbers restrictions)) × (list.new ≡ put_into list.old at (delivery_numbers restrictions)) }
{
    match restrictions {
        None => wire::put(list, at, &[0]),
        Some(restrictions) => wire::put(
            list,
            at,
            &[
                1,
                wire::flag(restrictions.web_delivery_allowed_flag),
                wire::flag(restrictions.no_regional_blackout_flag),
                wire::flag(restrictions.archive_allowed_flag),
                u64::from(restrictions.device_restrictions),
            ],
        ),
    }
}

fn duration(list: &mut [u64], at: usize, length: Option<Ticks>) -> usize
    ensures { (result ≡ put_place list.old at (duration_numbers length)) × (list.new ≡ put_into list.old at (duration_numbers length)) }
{
    match length {
        None => wire::put(list, at, &[0]),
        Some(ticks) => wire::put(list, at, &[1, ticks.0]),
    }
}

fn sub_segments(list: &mut [u64], at: usize, sub: Option<SubSegment>) -> usize
    ensures { (result ≡ put_place list.old at (sub_segment_numbers sub)) × (list.new ≡ put_into list.old at (sub_segment_numbers sub)) }
{
    match sub {
        None => wire::put(list, at, &[0]),
        Some(sub) => wire::put(
            list,
            at,
            &[
                1,
                u64::from(sub.sub_segment_num),
                u64::from(sub.sub_segments_expected),
            ],
        ),
    }
}

pub(crate) fn segmentation(list: &mut [u64], at: usize, x: Segmentation) -> usize
    requires { at + 19 ≤ length list.old }
    ensures { Put list.old at (segmentation_numbers x) result list.new }
{
    let id = x.segmentation_event_id;
    let n = wire::put(list, at, &[2, u64::from(id.0)]);
    let n = wire::mode(list, n, x.mode);
    let n = delivery(list, n, x.delivery);
    let n = duration(list, n, x.duration);
    let n = wire::put(
        list,
        n,
        &[
            u64::from(x.segmentation_upid_type),
            u64::from(x.segmentation_upid_length),
            u64::from(x.segmentation_type_id),
            u64::from(x.segment_num),
            u64::from(x.segments_expected),
        ],
    );
    sub_segments(list, n, x.sub_segments)
}
