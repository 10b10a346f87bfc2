// What signal 02 shows of a list.
ghost use Rattle.std.specs.Prelude.{◌≡◌, ◌+◌, drop};
ghost use Rattle.rules.specs.Elements.{items};
ghost use Rattle.elements_reader.specs.Orders.{codec_end};

use elements_reader::{Element, element_at};

// Where the codec ends that is looked for from `at` on. In a right list all elements up to there are shown and none behind.
#[tactic(auto, using(crate::proofs::Ends::turns))]
pub fn codec_end(list: &[u8], at: usize) -> usize
    ensures { result ≡ at + codec_end (items (drop at list.now)) }
{
    let Element::Whole {
        category,
        length,
        first,
    } = element_at(list, at)
    else {
        return at;
    };
    let end = first + length;
    if category == 7 {
        end
    } else {
        codec_end(list, end)
    }
}
