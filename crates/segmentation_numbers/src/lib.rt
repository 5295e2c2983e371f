// What an uncancelled segmentation descriptor says, as numbers.
#![tactic(auto)]

mod lists;

ghost use Rattle.std.specs.Prelude.{◌≡◌};
ghost use Rattle.wire.specs.Given.{these, given, given_into};
ghost use Rattle.segmentation_numbers.specs.Numbers.{segmentation_numbers};

use segmentation_reading::Segmentation;
use units::Refusal;

// A segmentation descriptor, written to the front of out.
pub fn give_segmentation(segmentation: Segmentation, out: &mut [u64]) -> Result<usize, Refusal>
    ensures { (result ≡ given (these (segmentation_numbers segmentation)) out.old) × (out.new ≡ given_into (these (segmentation_numbers segmentation)) out.old) }
{
    let mut list = [0u64; 19];
    let n = lists::segmentation(&mut list, 0, segmentation);
    wire::give(&list[..n], out)
}
