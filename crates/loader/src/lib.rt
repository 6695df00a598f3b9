// Loading a file of the folder into a lent buffer, which the programs share. What a file holds no contract can say: promised is that
// what was loaded lies within the buffer.
#![tactic(auto)]

ghost use Rattle.std.specs.Prelude.{IfSome};
ghost use Rattle.io.specs.Counts.{IsPrefixLen};

use std::fs::File;
use std::io::Read;
use std::rt::Files;

// Reads until the buffer is full, the input ends or a read fails, and answers how many bytes lie at the front of the buffer.
fn read_full<R: Read>(input: &mut R, buffer: &mut [u8]) -> usize
    ensures { IsPrefixLen result buffer.new }
{
    let mut done: usize = 0;
    while done < buffer.len() {
        let n = input.read(&mut buffer[done..]).unwrap_or(0);
        if n == 0 {
            return done;
        }
        done += n;
    }
    done
}

// Reads a file from its beginning into a buffer, and answers how many bytes it gave. A longer file gives its first bytes; one that
// can't be opened gives no number.
pub fn load<R: Files>(files: &R, name: &str, buffer: &mut [u8]) -> Option<usize>
    ensures { IfSome result (λ n. IsPrefixLen n buffer.new) }
{
    match File::open(files, name) {
        Ok(mut file) => Some(read_full(&mut file, buffer)),
        Err(_) => None,
    }
}
