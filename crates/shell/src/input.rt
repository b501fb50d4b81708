//! What the programs read: the sheet in a file, or on standard input.
ghost use Rattle.std.specs.Prelude.{◌≡◌, ◌≤◌, IfOk, IfSome, length, take};

use crate::trouble::Trouble;
use reading::records::LARGEST_SHEET;
use std::fs::{self, Files};
use std::io::{self, ErrorKind, Read};

/// The bytes of the largest sheet, and one more, by which a sheet that is too long is known.
pub const ROOM: usize = LARGEST_SHEET + 1;

/// The word for standard input, or standard output, where a file could be named.
pub const STANDARD: &str = "-";

/// Reads into the room what the reader gives, to its end or up to what there is room for; answers how many bytes. An interrupted
/// read is made again.
pub fn fill_from<R: Read>(reader: &mut R, room: &mut [u8]) -> io::Result<usize>
    ensures size { length room.new ≡ length room.old }
    ensures bound { IfOk result (λ n. n ≤ length room.new) }
    ensures bytes { IfOk result (λ n. IfSome (R.remaining reader.old) (λ xs. take n room.new ≡ take (length room.old) xs)) }
{
    let mut filled = 0;
    for _ in 0..u64::MAX {
        if filled >= room.len() {
            return Ok(filled);
        }
        match reader.read(&mut room[filled..]) {
            Ok(0) => return Ok(filled),
            Ok(count) => filled += count,
            Err(error) => {
                if error.kind() != ErrorKind::Interrupted {
                    return Err(error);
                }
            }
        }
    }
    Err(io::Error::from(ErrorKind::Interrupted))
}

/// The sheet in the file that is named, or on standard input where none is: all of it, or of one that is longer than the largest
/// there can be, a byte more than that has, which is refused in the same way.
pub fn read_sheet<'a, R: Input + Files>(
    rt: &R,
    file: Option<&'a str>,
    room: &'a mut [u8; ROOM],
) -> Result<&'a [u8], Trouble<'a>>
    ensures { IfOk result (λ bs. length bs.now ≤ 27079) }
{
    let (place, read) = match file {
        None | Some(STANDARD) => ("standard input", fill_from(&mut rt.reader(), room)),
        Some(name) => (name, fill_from_file(rt, name, room)),
    };
    match read {
        Ok(length) => Ok(&room[..length]),
        Err(error) => Err(Trouble { place, error }),
    }
}

fn fill_from_file<R: Files>(files: &R, name: &str, room: &mut [u8]) -> io::Result<usize>
    ensures size { length room.new ≡ length room.old }
    ensures bound { IfOk result (λ n. n ≤ length room.new) }
{
    fill_from(&mut fs::open(files, name)?, room)
}
