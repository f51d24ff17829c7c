// Lists an image: the file that the argument names, or standard input where there is none. The file is only read.
#![tactic(auto)]

ghost use Rattle.std.specs.Prelude.{◌≤◌, length};

use layout::{MOST_SECTORS, SECTOR_BYTES};
use std::env::{Env, FillError};
use std::fs::File;
use std::io;
use std::io::Read;

// Reads until `buf` is full, the input ends or a read fails, and says how many bytes it put at the start of `buf`.
fn read_full<R: Read>(from: &mut R, buf: &mut [u8]) -> usize
    ensures { result ≤ length buf.new }
{
    let mut done = 0;
    // the step is as much as a read gave
    while done < buf.len() {
        match from.read(&mut buf[done..]) {
            Ok(0) | Err(_) => return done,
            Ok(n) => done += n,
        }
    }
    done
}

// How many bytes the input has, of which `got` were read: the rest is read for its length alone. Nothing says that the input ends, and a proved loop has to: it
// counts up to a number of reads, so an input without an end is listed too. (The library's `copy` would read on for ever.)
fn size_of<R: Read>(from: &mut R, got: usize) -> io::Result<u64> {
    let mut chunk = [0u8; SECTOR_BYTES];
    let mut bytes = got as u64;
    for _ in 0..u32::MAX {
        let n = from.read(&mut chunk)?;
        if n == 0 {
            return Ok(bytes);
        }
        bytes = bytes.saturating_add(n as u64);
    }
    Ok(bytes)
}

// An image of more than 16 sectors is refused whatever its bytes are: 17 sectors of it stand for all.
fn list<R: Read>(rt: &impl Print, from: &mut R) -> io::Result<()> {
    let mut image = [0u8; (MOST_SECTORS + 1) * SECTOR_BYTES];
    let got = read_full(from, &mut image);
    let bytes = size_of(from, got)?;
    let mut out = [0u8; 2048];
    let n = listing::list_image(&mut image[..got], bytes, &mut out);
    let _ = rt.write_all(&out[..n]);
    Ok(())
}

fn list_file(rt: &HostRuntime, path: &str) -> io::Result<()> {
    let mut file = File::open(rt, path)?;
    list(rt, &mut file)
}

// Says on standard error what failed, and why.
fn tell(rt: &impl Eprint, name: &str, listed: io::Result<()>) {
    if let Err(e) = listed {
        let _ = eprintln!(rt; "{name}: {e}");
    }
}

fn main(rt: HostRuntime) {
    // no heap: the library fills a lent array and says how far
    let mut path = [0u8; 4096];
    match rt.arg(1, &mut path) {
        Ok(0) | Err(FillError::TooLong) => {
            let _ = eprintln!(rt; "list: the name of the image is empty or too long");
        }
        Ok(n) => match str::from_utf8(&path[..n]) {
            Ok(name) => tell(&rt, name, list_file(&rt, name)),
            Err(_) => {
                let _ = eprintln!(rt; "list: the name of the image is not UTF-8");
            }
        },
        Err(FillError::NotPresent) => tell(&rt, "standard input", list(&rt, &mut rt.stdin())),
    }
}
