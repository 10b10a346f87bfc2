// The input, line by line.
#![tactic(auto)]

ghost use Rattle.std.specs.Prelude.{◌≤◌};
ghost use Rattle.replay_input.specs.declared.TheConstants.{ROOM};

use replay_script::lines::first;
use std::io;
use std::io::Read;

// How many octets a line has room for.
const ROOM: usize = 8191;

// A line as it is read: its octets, as long as there is room for them. They are no `ArrayVec`: to empty one and to add to one are
// calls of `memset` and `memcpy`, by which a short line takes half as much time again.
#[derive(Drop)]
pub struct Line {
    octets: [u8; ROOM],
    count: usize,
    is_long: bool,
    ghost inside: { count ≤ ROOM },
}

impl Line {
    pub fn new() -> Line {
        Line {
            octets: [0; ROOM],
            count: 0,
            is_long: false,
        }
    }

    // The line, if it was not too long.
    pub fn octets(&self) -> Option<&[u8]> {
        if self.is_long {
            None
        } else {
            Some(&self.octets[..self.count])
        }
    }

    fn clear(&mut self) {
        self.count = 0;
        self.is_long = false;
    }

    // An empty line, of which there may be many, has nothing to add.
    fn add(&mut self, octets: &[u8]) {
        if !octets.is_empty() {
            self.lay(octets);
        }
    }

    // Not to be compiled into `next`: there the compiler sees that the line and the input are apart, and makes `put` a call of
    // `memcpy` too.
    #[inline(never)]
    fn lay(&mut self, octets: &[u8]) {
        let end = self.count.saturating_add(octets.len());
        if end <= ROOM {
            octets::put(&mut self.octets, self.count, octets);
            self.count = end;
        } else {
            self.is_long = true;
        }
    }
}

// The input: what was read of it and not yet taken is from `from` to `to`. The program has no heap, and std's reader with an area
// of its own asks for it.
#[derive(Drop)]
pub struct Input<R: Read + Drop> {
    source: R,
    octets: [u8; 16384],
    from: usize,
    to: usize,
    has_ended: bool,
}

impl<R: Read + Drop> Input<R> {
    pub fn new(source: R) -> Input<R> {
        Input {
            source,
            octets: [0; 16384],
            from: 0,
            to: 0,
            has_ended: false,
        }
    }

    // Reads the next line, and tells whether there was one; a last line may be without its newline. An error is handed on.
    // A proved loop has to end, and nothing says that a line does: so the loop has a number of turns that no run uses up.
    pub fn next(&mut self, line: &mut Line) -> io::Result<bool> {
        line.clear();
        if self.has_ended {
            return Ok(false);
        }
        for _ in 0..u64::MAX {
            let left = self.octets.get(self.from..self.to).unwrap_or(&[]);
            if left.is_empty() {
                self.to = self.source.read(&mut self.octets)?;
                self.from = 0;
                if self.to == 0 {
                    self.has_ended = true;
                    return Ok(true);
                }
            } else {
                let n = first(left, b'\n');
                line.add(&left[..n]);
                if n < left.len() {
                    self.from += n + 1;
                    return Ok(true);
                }
                self.from = self.to;
            }
        }
        Ok(false)
    }
}
