// A line is a step, or nothing: what stands before a comment, without the blanks at its ends. A step is words, parted by one
// blank each; the place of a word is where it begins, and behind the last word it is the length of the step.
ghost use Rattle.std.specs.Prelude.{◌≡◌, ◌<◌, ◌≤◌, ◌==◌, not, drop, length, position, reverse, MatchOption};
ghost use Rattle.std.specs.Iterator.{at_most};
ghost use Rattle.replay_script.specs.Lines.{first_of, is_blank, blanks_of, kept_of, step_in, part_at, word_at, next_at};

// The place of the first `octet`. This chain, and the two of `before` and `behind`, stand in functions of their own: what a chain
// finds is proved where a contract says it.
fn place(s: &[u8], octet: u8) -> Option<usize>
    ensures { result ≡ position (λ x. x == octet) s.now }
{
    s.iter().position(|x| *x == octet)
}

// The same, or the length where there is none.
#[tactic(auto, using(crate::proofs::Within::found_or_end), unfolding(crate::specs::Lines::first_of))]
pub fn first(s: &[u8], octet: u8) -> usize
    ensures value { result ≡ first_of octet s.now }
    ensures within { result ≤ length s.now }
{
    place(s, octet).unwrap_or(s.len())
}

// Blank, tab or carriage return.
#[tactic(auto, unfolding(crate::specs::Lines::is_blank))]
fn blank(octet: u8) -> bool
    ensures { result ≡ is_blank octet }
{
    matches!(octet, b' ' | b'\t' | b'\r')
}

// How many blanks stand in front of something.
fn before(s: &[u8]) -> Option<usize>
    ensures { result ≡ position (λ x. not (is_blank x)) s.now }
{
    s.iter().position(|x| !blank(*x))
}

// How many stand behind something.
fn behind(s: &[u8]) -> Option<usize>
    ensures { result ≡ position (λ x. not (is_blank x)) (reverse s.now) }
{
    s.iter().rev().position(|x| !blank(*x))
}

// How many blanks stand at the front.
#[tactic(auto, using(crate::proofs::Within::found_or_end), unfolding(crate::specs::Lines::blanks_of))]
fn blanks(s: &[u8]) -> usize
    ensures { result ≡ blanks_of s.now }
{
    before(s).unwrap_or(s.len())
}

// How many octets are left without the blanks at the end.
#[tactic(auto, using(crate::proofs::Within::found_from_end), unfolding(crate::specs::Lines::kept_of))]
fn kept(s: &[u8]) -> usize
    ensures value { result ≡ kept_of s.now }
    ensures within { result ≤ length s.now }
{
    s.len() - behind(s).unwrap_or(s.len())
}

// The step of a line, empty where it has none.
#[tactic(auto, unfolding(crate::specs::Lines::step_in, crate::specs::Lines::trimmed))]
pub fn step(line: &[u8]) -> &[u8]
    ensures { result.now ≡ step_in line.now }
{
    let text = &line[..first(line, b'#')];
    rest(&text[..kept(text)], blanks(text))
}

// All that is left from a place on.
#[tactic(auto, using(crate::proofs::Ends::drop_past))]
pub fn rest(s: &[u8], at: usize) -> &[u8]
    ensures { result.now ≡ drop at s.now }
{
    s.get(at..).unwrap_or(&[])
}

// What stands from a place on, up to the first `mark` or to the end.
#[tactic(auto, unfolding(crate::specs::Lines::part_at))]
pub fn part(s: &[u8], at: usize, mark: u8) -> &[u8]
    ensures { result.now ≡ part_at mark at s.now }
{
    let left = rest(s, at);
    &left[..first(left, mark)]
}

// The word at a place, empty behind the end.
pub fn word(s: &[u8], at: usize) -> &[u8]
    ensures { result.now ≡ word_at at s.now }
{
    part(s, at, b' ')
}

// The place of the word behind the one at `at`.
#[tactic(auto, unfolding(crate::specs::Lines::next_at))]
pub fn next(s: &[u8], at: usize) -> usize
    ensures { result ≡ next_at at s.now }
{
    at.saturating_add(word(s, at).len())
        .saturating_add(1)
        .min(s.len())
}

// What is left of a step, word by word.
#[derive(Clone, Copy)]
pub struct Words<'a>(pub &'a [u8]);

impl<'a> Iterator for Words<'a> {
    type Item = &'a [u8];

    // The first word, and what is left behind it; of nothing no word, and nothing is left.
    ghost next_gives = { λ words gives behind. MatchOption gives
        ((length words.0.now ≡ 0) × (behind.0.now ≡ words.0.now))
        (λ first. (0 < length words.0.now)
        × (first.now ≡ word_at 0 words.0.now)
        × (behind.0.now ≡ drop (next_at 0 words.0.now) words.0.now)) };

    ghost remaining = { λ words. at_most (length words.0.now) };

    #[tactic(auto, using(crate::proofs::Further::next_shorter))]
    fn next(&mut self) -> Option<&'a [u8]> {
        if self.0.is_empty() {
            return None;
        }
        let first = word(self.0, 0);
        self.0 = rest(self.0, next(self.0, 0));
        Some(first)
    }
}
