// The lists of a known descriptor, by the byte at which it stands.
ghost use Rattle.std.specs.Prelude.{◌≡◌, ◌≤◌};
ghost use Rattle.descriptor_reading.specs.Places.{dtmf_char_at, segmentation_component_at, audio_component_at, components_at};

use descriptor_reading::{AudioComponent, SegmentationComponent};
use units::{Refusal, Ticks};

// Table 19, character m.
pub(crate) fn dtmf_char(s: &[u8], at: usize, m: usize) -> Result<u8, Refusal>
    requires { at ≤ 4090 }
    ensures { result ≡ dtmf_char_at s.now at m }
{
    if bits::octet(s, at) != 1 {
        return Err(Refusal::NotHere);
    }
    let dtmf_count = bits::read(s, 8 * (at + 7), 3) as usize;
    if dtmf_count <= m {
        return Err(Refusal::NotHere);
    }
    Ok(bits::octet(s, at + 8 + m))
}

// Table 20, component m.
pub(crate) fn segmentation_component(
    s: &[u8],
    at: usize,
    m: usize,
) -> Result<SegmentationComponent, Refusal>
    requires { at ≤ 4090 }
    ensures { result ≡ segmentation_component_at s.now at m }
{
    if bits::octet(s, at) != 2 {
        return Err(Refusal::NotHere);
    }
    if component_count(s, at + 6) <= m {
        return Err(Refusal::NotHere);
    }
    let place = at + 13 + 6 * m;
    Ok(SegmentationComponent {
        component_tag: bits::octet(s, place),
        pts_offset: Ticks(bits::read(s, 8 * place + 15, 33)),
    })
}

// Table 28, component m.
pub(crate) fn audio_component(s: &[u8], at: usize, m: usize) -> Result<AudioComponent, Refusal>
    requires { at ≤ 4090 }
    ensures { result ≡ audio_component_at s.now at m }
{
    if bits::octet(s, at) != 4 {
        return Err(Refusal::NotHere);
    }
    let audio_count = bits::read(s, 8 * (at + 6), 4) as usize;
    if audio_count <= m {
        return Err(Refusal::NotHere);
    }
    let place = 8 * (at + 7 + 5 * m);
    Ok(AudioComponent {
        component_tag: bits::read(s, place, 8) as u8,
        iso_code: bits::read(s, place + 8, 24) as u32,
        bit_stream_mode: bits::read(s, place + 32, 3) as u8,
        num_channels: bits::read(s, place + 35, 4) as u8,
        full_srvc_audio: bits::flag(s, place + 39),
    })
}

// How many components a segmentation descriptor has, by the byte after its identifier.
fn component_count(s: &[u8], at: usize) -> usize
    requires { at ≤ 4096 }
    ensures { result ≡ components_at s.now at }
{
    // segmentation_event_cancel_indicator
    if bits::flag(s, 8 * (at + 4)) {
        return 0;
    }
    // program_segmentation_flag
    if bits::flag(s, 8 * (at + 5)) {
        0
    } else {
        bits::octet(s, at + 6) as usize
    }
}
