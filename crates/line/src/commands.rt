// A line of the script as a command.
ghost use Rattle.std.specs.Prelude.{◌≡◌};
ghost use Rattle.line.specs.Command.{command_of, read_line};

use crate::words::read_fields;
use crate::{Command, Fields};

// The most bytes that a line has before its LF.
const MAX_LINE: usize = 80;

// The call that the first byte names, with the line's numbers, if they are as many as it takes.
fn command_of(kind: u8, fields: Fields) -> Option<Command>
    ensures { result ≡ command_of kind fields }
{
    match (kind, fields) {
        (b'f', Fields::Four(blocks, fill, number, overwrite)) => Some(Command::Format {
            blocks,
            fill,
            number,
            overwrite,
        }),
        (b'+', Fields::Three(hash, block, offset)) => Some(Command::Insert {
            hash,
            block,
            offset,
        }),
        (b'-', Fields::Three(hash, block, offset)) => Some(Command::Remove {
            hash,
            block,
            offset,
        }),
        (b'?', Fields::One(hash)) => Some(Command::Lookup { hash }),
        (b'w', Fields::One(budget)) => Some(Command::Work { budget }),
        _ => None,
    }
}

// A line without its LF.
pub fn read_line(line: &[u8]) -> Option<Command>
    ensures { result ≡ read_line line.now }
{
    if line.len() > MAX_LINE {
        return None;
    }
    let [kind, b' ', rest @ ..] = line else {
        return None;
    };
    command_of(*kind, read_fields(rest)?)
}
