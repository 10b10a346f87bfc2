// What the program keeps between lines.
use crate::records::Saved;
use arrayvec::ArrayVec;
use rules::layout::LONGEST;

// The most octets that a right book has.
pub const BOOK: usize = 2730;

#[derive(Drop)]
pub struct Session {
    // the book that was accepted last; empty until one was
    pub book: ArrayVec<u8, BOOK>,
    // the saved connection, and how many records it has
    pub saved: Saved,
    pub records: usize,
    // the packet size, and the length of the reply area
    pub size: usize,
    pub area: usize,
    // whether `explain` was read
    pub explains: bool,
}

impl Session {
    pub fn new() -> Session {
        Session {
            book: ArrayVec::new(),
            saved: [0; LONGEST],
            records: 0,
            size: 672,
            area: 64,
            explains: false,
        }
    }

    // Whether a book was accepted.
    pub fn is_booked(&self) -> bool {
        !self.book.is_empty()
    }

    // Keeps a book that was accepted, over a connection of so many records. There is room for it.
    pub fn adopt(&mut self, given: &[u8], records: usize) {
        self.book.clear();
        let _ = self.book.try_extend_from_slice(given);
        self.records = records;
    }
}
