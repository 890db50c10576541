// slotview: reads a stored image from standard input and draws its site, or says that it is refused.
#![tactic(auto)]

ghost use Rattle.std.specs.Prelude.{◌≤◌, length, IfOk};

use book_drawing::viewing::view;
use std::io;
use std::io::{Read, Write};

// Reads until the buffer is full or the input ends, and says how many bytes that were.
// Kept: a read gives any number of bytes, so no range counts them. The library's `read_to_end` may fail for want of memory, and this program fails on
// nothing but its input and its output.
fn read_full<R: Read>(input: &mut R, out: &mut [u8]) -> io::Result<usize>
    ensures { IfOk result (λ n. n ≤ length out.new) }
{
    let mut done = 0;
    while done < out.len() {
        let n = input.read(&mut out[done..])?;
        if n == 0 {
            break;
        }
        done += n;
    }
    Ok(done)
}

// The buffers are larger than any image and than any drawing of one. So input that is too long fills the first one, and is refused for its length.
fn main(rt: HostRuntime) -> io::Result<()> {
    let mut image = [0u8; 4096];
    let mut text = [0u8; 4096];
    let n = read_full(&mut rt.stdin(), &mut image)?;
    let size = view(&image[..n], &mut text);
    rt.stdout().write_all(&text[..size])
}
