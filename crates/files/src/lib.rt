// What the programs read. A file that can't be opened counts as empty, and so does one whose name is no UTF-8, since std
// names no such file.
#![tactic(auto)]

ghost use Rattle.std.specs.Prelude.{◌≤◌, length};

use std::fs::File;
use std::io::Read;
use std::rt::Files;

// Reads until `buffer` is full, the input ends or a read fails, and answers how many bytes it put at the start of
// `buffer`.
pub fn read_full(input: &mut impl Read, buffer: &mut [u8]) -> usize
    ensures { result ≤ length buffer.new }
{
    let mut done = 0;
    while done < buffer.len() {
        let Ok(n) = input.read(&mut buffer[done..]) else {
            return done;
        };
        if n == 0 {
            return done;
        }
        done += n;
    }
    done
}

// Puts a file at the start of `buffer`, as far as it fits, and answers how many bytes.
pub fn read_file(rt: &impl Files, path: &[u8], buffer: &mut [u8]) -> usize
    ensures { result ≤ length buffer.new }
{
    let Ok(path) = str::from_utf8(path) else {
        return 0;
    };
    match File::open(rt, path) {
        Ok(mut file) => read_full(&mut file, buffer),
        Err(_) => 0,
    }
}
