// A right book as a type: what is known of its octets travels with them. How many entries it has, each of them, and where it has
// a SEID.
ghost use Rattle.std.specs.Prelude.{◌≡◌, ◌+◌, ◌≤◌, length, get_or};
ghost use Rattle.rules.specs.Book.{book_number, book_of};
ghost use Rattle.octets.specs.Patch.{part};
ghost use Rattle.book.specs.Places.{place_in};
ghost use Rattle.book.specs.Entries.{RightEntry};

use rules::OurSeid;

// The octets of a book that is right: `book_check` makes one of octets that pass.
#[derive(Clone, Copy)]
pub struct RightBook<'a> {
    pub octets: &'a [u8],
    ghost right: { book_number octets.now ≡ 0 },
}

// An entry: its SEID, its kind octet, and its list, with the place where that begins.
#[derive(Clone, Copy)]
pub struct Entry<'a> {
    pub seid: OurSeid,
    pub kind: u8,
    pub from: usize,
    pub list: &'a [u8],
}

// The place of an entry: which one it is, counted from 0, its kind octet, and where its list begins and how long it is.
#[derive(Clone, Copy)]
pub struct Place {
    pub index: usize,
    pub kind: u8,
    pub from: usize,
    pub size: usize,
}

impl<'a> RightBook<'a> {
    // The number of entries.
    pub fn count(self) -> usize
        ensures { result ≡ length (book_of self.entry.octets.now) }
    {
        self.octets[5] as usize
    }

    // The entry that begins at a place.
    pub fn entry(self, at: usize) -> Entry<'a>
        requires { RightEntry self.octets.now at }
        ensures seid { result.seid ≡ record { 0 = get_or self.entry.octets.now at 0 } }
        ensures kind { result.kind ≡ get_or self.entry.octets.now (at + 1) 0 }
        ensures from { result.from ≡ at + 3 }
        ensures list { result.list.now ≡ part (at + 3) (get_or self.entry.octets.now (at + 2) 0) self.entry.octets.now }
        ensures size { length result.list.now ≡ get_or self.entry.octets.now (at + 2) 0 }
        ensures inside { result.from + length result.list.now ≤ length self.entry.octets.now }
    {
        let from = at + 3;
        Entry {
            seid: OurSeid(self.octets[at]),
            kind: self.octets[at + 1],
            from,
            list: octets::part(self.octets, from, self.octets[at + 2] as usize),
        }
    }

    // Which entry has the SEID, and where its list stands.
    pub fn locate(self, seid: OurSeid) -> Option<Place>
        ensures { result ≡ place_in seid self.entry.octets.now }
    {
        let mut at = 6;
        for index in 0..self.count() {
            let entry = self.entry(at);
            let size = entry.list.len();
            if entry.seid == seid {
                return Some(Place {
                    index,
                    kind: entry.kind,
                    from: entry.from,
                    size,
                });
            }
            at = entry.from + size;
        }
        None
    }
}
