// The words of a step, by their forms.
use replay_script::lines::Words;
use replay_script::names;
use replay_script::numbers::number;

// The most words that a step has between its name and its end.
pub const MOST: usize = 6;

#[derive(Clone, Copy)]
pub enum Value {
    Dash,
    Number(u16),
}

impl Value {
    // A word by its form, if it is of this form.
    fn read(form: u8, word: &[u8]) -> Option<Value> {
        if form == b'd' && matches!(word, b"-") {
            return Some(Value::Dash);
        }
        let number = match form {
            b'o' => number(word, 255)?,
            b'n' | b'd' => number(word, 65535)?,
            b's' => u16::from(names::state(word)?),
            b'c' => u16::from(names::channel(word)?),
            _ => return None,
        };
        Some(Value::Number(number))
    }

    pub fn number(self) -> u16 {
        self.tenths().unwrap_or(0)
    }

    pub fn octet(self) -> u8 {
        u8::try_from(self.number()).unwrap_or(0)
    }

    // A delay in tenths of a millisecond, or none.
    pub fn tenths(self) -> Option<u16> {
        match self {
            Value::Dash => None,
            Value::Number(n) => Some(n),
        }
    }
}

// Takes a word for each form.
pub fn read(forms: &[u8], words: &mut Words<'_>) -> Option<[Value; MOST]> {
    let mut values = [Value::Dash; MOST];
    for (place, form) in values.iter_mut().zip(forms) {
        *place = Value::read(*form, words.next()?)?;
    }
    Some(values)
}
