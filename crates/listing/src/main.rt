// Lists the sheet file on standard input. What is printed is proved of `render`; here bytes are only moved.
#![tactic(auto)]

ghost use Rattle.std.specs.Prelude.{◌≤◌, length};

use std::io;
use std::io::{Print, Read};

// Reads until `buf` is full, the input ends or a read fails, and gives how many bytes it put at the start of `buf`.
fn read_full(input: &mut impl Read, buf: &mut [u8]) -> usize
    ensures { result ≤ length buf.new }
{
    let mut done = 0;
    while done < buf.len() {
        match input.read(&mut buf[done..]) {
            Ok(0) | Err(_) => break,
            Ok(count) => done += count,
        }
    }
    done
}

fn main(rt: HostRuntime) -> io::Result<()> {
    // One byte more than the longest file, so that a longer input is seen to be longer.
    let mut file = [0u8; 11265];
    let length = read_full(&mut rt.stdin(), &mut file);
    let mut text = [0u8; render::TEXT_ROOM];
    let end = render::list_sheet(&file[..length], &mut text).unwrap();
    if rt.write_all(&text[..end]).is_err() {
        let _ = eprintln!(rt; "listing: the output could not be written");
    }
    Ok(())
}
