// Reading a list of elements, of a book, a command or a stored configuration: a reader keeps the list and its place in it, and
// tells what stands there (`look`). Every walk over a list gets to its elements by `element_at`, which makes a reader at a place
// that the walk has moved on to.
#![tactic(auto)]

ghost use Rattle.std.specs.Prelude.{◌≡◌};
ghost use Rattle.elements_reader.specs.Orders.{TransportFirst};
ghost use Rattle.elements_reader.specs.Standing.{element_at};

// What an entry offers: a list that begins with the media transport, as every list of a right book does.
#[derive(Clone, Copy)]
pub struct Offer<'a> {
    pub list: &'a [u8],
    ghost first: { TransportFirst list.now },
}

#[derive(Clone, Copy)]
pub struct Reader<'a> {
    pub list: &'a [u8],
    pub at: usize,
}

// What stands at a place of a list: nothing more, an element that is cut short, or a whole one with the length of its value and
// the place where the value begins. These are three answers, as document 01 has them, and no Option or Result has its shape.
#[derive(Clone, Copy)]
pub enum Element {
    End,
    Short {
        category: u8,
    },
    Whole {
        category: u8,
        length: usize,
        first: usize,
    },
}

impl Reader<'_> {
    // What stands at the reader's place.
    pub fn look(self) -> Element
        ensures { result ≡ element_at self.entry.list.now self.entry.at }
    {
        let Reader { list, at } = self;
        let Some(&category) = list.get(at) else {
            return Element::End;
        };
        let Some(&length) = list.get(at + 1) else {
            return Element::Short { category };
        };
        let length = usize::from(length);
        if length <= list.len() - at - 2 {
            Element::Whole {
                category,
                length,
                first: at + 2,
            }
        } else {
            Element::Short { category }
        }
    }
}

// A reader of the list is made at the place, and looks.
pub fn element_at(list: &[u8], at: usize) -> Element
    ensures { result ≡ element_at list.now at }
{
    Reader { list, at }.look()
}
