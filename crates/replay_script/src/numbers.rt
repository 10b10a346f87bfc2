// Decimal numbers: one or more digits, leading zeros allowed, up to a limit of at most 65,535.
ghost use Rattle.std.specs.Prelude.{◌≡◌};
ghost use Rattle.replay_script.specs.Numbers.{or_none, number_of};

// The number that a word is, if it is one and not above `most`.
#[tactic(auto, unfolding(crate::specs::Numbers::number_of, crate::specs::Numbers::number_from))]
pub fn number(word: &[u8], most: u16) -> Option<u16>
    ensures { or_none result ≡ number_of most word.now }
{
    if word.is_empty() {
        return None;
    }
    let mut value = 0;
    for octet in word {
        if !octet.is_ascii_digit() {
            return None;
        }
        value = value * 10 + u32::from(octet - b'0');
        if u32::from(most) < value {
            return None;
        }
    }
    Some(value as u16)
}
