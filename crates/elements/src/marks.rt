// Where the elements of a list stand, by category, as a value that a walk carries along.
ghost use Rattle.std.specs.Prelude.{◌≡◌};
ghost use Rattle.rules.specs.Elements.{category_of};
ghost use Rattle.elements.specs.Marks.{no_marks, mark_of, marked};

// Where in a list the value of the element of each category begins, 0 where there is none. Eight fields and not an array by
// category: any eight places are marks, an array only where it is long enough, which each lemma of the walk would have to ask.
#[derive(Clone, Copy, Default)]
pub struct Marks {
    pub transport: u16,
    pub reporting: u16,
    pub recovery: u16,
    pub protection: u16,
    pub compression: u16,
    pub multiplexing: u16,
    pub codec: u16,
    pub delaying: u16,
}

impl Marks {
    // No element was passed.
    #[tactic(auto, unfolding(crate::specs::Marks::no_marks))]
    pub fn none() -> Marks
        ensures { result ≡ no_marks }
    {
        Marks::default()
    }

    // Where the element of a category stands, 0 where none was passed.
    #[tactic(auto, unfolding(rules::specs::Elements::category_of, crate::specs::Marks::mark_of))]
    pub fn of(self, category: u8) -> u16
        ensures { result ≡ mark_of (category_of category) self }
    {
        match category {
            1 => self.transport,
            2 => self.reporting,
            3 => self.recovery,
            4 => self.protection,
            5 => self.compression,
            6 => self.multiplexing,
            7 => self.codec,
            8 => self.delaying,
            _ => 0,
        }
    }

    // An element of this category was passed, whose value begins at `first`.
    #[tactic(auto, unfolding(crate::specs::Marks::marked))]
    pub fn passed(self, category: u8, first: u16) -> Marks
        ensures { result ≡ marked category first self }
    {
        let mut next = self;
        match category {
            1 => next.transport = first,
            2 => next.reporting = first,
            3 => next.recovery = first,
            4 => next.protection = first,
            5 => next.compression = first,
            6 => next.multiplexing = first,
            7 => next.codec = first,
            8 => next.delaying = first,
            _ => {}
        }
        next
    }
}
