// Draws each image that an argument names, one after the other, as slotview does.
#![tactic(auto)]

use book_drawing::viewing::view;
use std::io::Write;
use std::{env, fs, io};

// One that cannot be read is told, and the next ones are drawn all the same.
fn draw(rt: &HostRuntime, path: &str) -> io::Result<()> {
    let image = match fs::read(rt, path) {
        Ok(image) => image,
        Err(error) => return eprintln!(rt; "{path}: {error}"),
    };
    let mut text = [0u8; 4096];
    let size = view(&image, &mut text);
    let mut out = rt.stdout();
    out.write_all(path.as_bytes())?;
    out.write_all(b"\n")?;
    out.write_all(&text[..size])
}

fn main(rt: HostRuntime) -> io::Result<()> {
    for path in env::args(&rt)?.skip(1) {
        draw(&rt, path.as_str())?;
    }
    Ok(())
}
