// The words of a line, and the numbers that they spell.
ghost use Rattle.std.specs.Prelude.{◌≡◌};
ghost use Rattle.line.specs.Words.{words, value_from, number_of};
ghost use Rattle.line.specs.Command.{add, fields_from};

use crate::Fields;

// The value of digits, if each byte is one and the value fits 32 bits.
#[tactic(auto, using(crate::specs::WordsLaws::value_over))]
fn read_value(word: &[u8]) -> Option<u32>
    ensures { result ≡ value_from 0 word.now }
{
    let mut value: u32 = 0;
    for byte in word {
        if !byte.is_ascii_digit() {
            return None;
        }
        value = value.checked_mul(10)?.checked_add((*byte - b'0') as u32)?;
    }
    Some(value)
}

// A word as a number: no empty word, and no leading zero but 0 itself.
fn read_number(word: &[u8]) -> Option<u32>
    ensures { result ≡ number_of word.now }
{
    if word.is_empty() {
        return None;
    }
    if word.len() > 1 && word[0] == b'0' {
        return None;
    }
    read_value(word)
}

// One number more.
fn add_value(fields: Fields, n: u32) -> Option<Fields>
    ensures { result ≡ add fields n }
{
    match fields {
        Fields::None => Some(Fields::One(n)),
        Fields::One(a) => Some(Fields::Two(a, n)),
        Fields::Two(a, b) => Some(Fields::Three(a, b, n)),
        Fields::Three(a, b, c) => Some(Fields::Four(a, b, c, n)),
        Fields::Four(_, _, _, _) => None,
    }
}

// The numbers that the words of `line` spell, if each spells one and they are not too many.
pub fn read_fields(line: &[u8]) -> Option<Fields>
    ensures { result ≡ fields_from Fields.None (words line.now) }
{
    let mut fields = Fields::None;
    for word in line.split(|byte| *byte == b' ') {
        fields = add_value(fields, read_number(word)?)?;
    }
    Some(fields)
}
