// Decimal numbers and spares, taken from the front of the rest of a line; every input is taken.
ghost use Rattle.std.specs.Prelude.{◌≡◌, ◌<◌, MatchOption, length};
ghost use Rattle.vectors.specs.Rest.{RestOf};
ghost use Rattle.vectors.specs.Small.{Small};

// Takes `byte` if `rest` begins with it.
pub fn skip_byte(rest: &mut &[u8], byte: u8)
    ensures { RestOf rest.new.now rest.old.now }
{
    if let [first, more @ ..] = *rest {
        if *first == byte {
            *rest = more;
        }
    }
}

// Takes the decimal number that `rest` begins with, up to the first byte that is not taken for a digit of it.
pub fn read_number(rest: &mut &[u8]) -> Option<u32>
    ensures { MatchOption result (rest.new.now ≡ rest.old.now)
        (λ value. (value < 65536) × (length rest.new.now < length rest.old.now)
        × RestOf rest.new.now rest.old.now) }
{
    let mut value = None;
    while let [byte, more @ ..] = *rest {
        let before = value.unwrap_or(0);
        if !byte.is_ascii_digit() || before > 6000 {
            break;
        }
        value = Some(before * 10 + (*byte - b'0') as u32);
        *rest = more;
    }
    value
}

// Takes 16 spares with a space between them; those that are not there are 0.
pub fn read_spares(rest: &mut &[u8]) -> [u32; 16]
    ensures { Small result × RestOf rest.new.now rest.old.now }
{
    let mut spares = [0u32; 16];
    for spare in spares.iter_mut() {
        *spare = read_number(rest).unwrap_or(0);
        skip_byte(rest, b' ');
    }
    spares
}
