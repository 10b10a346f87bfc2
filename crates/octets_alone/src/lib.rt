// Whether of eight octets in an area all but the first are zero: the eight are compared in one go.
#![tactic(auto)]

ghost use Rattle.std.specs.Prelude.{◌≡◌, ◌∷◌, ◌+◌, ◌≤◌, length, replicate};
ghost use Rattle.rules.specs.Octets.{same_octets};
ghost use Rattle.octets.specs.Patch.{part as part_of};
ghost use Rattle.octets_alone.specs.Weights.{little_of};

// The eight octets from `at` on as one number, low octet first. One by one they are loaded at once; copied out as a slice they
// pass through memory.
fn eight(s: &[u8], at: usize) -> u64
    requires { at + 8 ≤ length s.now }
    ensures { result ≡ little_of (part_of at 8 s.now) }
{
    u64::from_le_bytes([
        s[at],
        s[at + 1],
        s[at + 2],
        s[at + 3],
        s[at + 4],
        s[at + 5],
        s[at + 6],
        s[at + 7],
    ])
}

// Whether the eight octets from `at` on are `first` and seven zeros: as numbers, which is one comparison.
pub fn alone(s: &[u8], at: usize, first: u8) -> bool
    requires { at + 8 ≤ length s.now }
    ensures { result ≡ same_octets (part_of at 8 s.now) (first ∷ replicate 7 0) }
{
    eight(s, at) == u64::from(first)
}
