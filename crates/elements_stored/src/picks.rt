// What is stored of a list.
ghost use Rattle.elements_stored.specs.Stores.{MarksFit};

use elements::marks::Marks;

// A list, and where the elements stand in it that are stored of it.
#[derive(Clone, Copy)]
pub struct Picks<'a> {
    pub list: &'a [u8],
    pub marks: Marks,
    ghost fits: { MarksFit list.now marks },
}
