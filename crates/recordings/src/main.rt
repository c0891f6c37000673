// Replays recordings and compares each listing with the one expected. The arguments are file names in pairs: a recording, and its listing. A line is
// written for each pair: the recording's name, `same` or `differs` and the line that sums the replay up, or `missing`.
#![tactic(auto)]

use console::Cut;
use std::fs::File;
use std::{env, fs, io};

// Whether the recording in one file gives the listing in another; and the line that sums it up.
fn compare_files(rt: &impl Print, recording: &mut File, expected: &mut File) -> io::Result<()> {
    let mut input = [0u8; 16384];
    // Where a read fails, what came before it.
    let (Ok(length) | Err(Cut { length })) = console::read_input(recording, &mut input);
    let mut rdram = [0u8; 32768];
    let mut dmem = [0u8; 4096];
    let mut imem = [0u8; 4096];
    let mut out = [0u8; 69204];
    let mut line = [0u8; 128];
    let done = console::judge(
        &input[..length],
        &mut rdram,
        &mut dmem,
        &mut imem,
        &mut out,
        &mut line,
    );
    // One byte more than any listing has.
    let mut listing = [0u8; 69205];
    let (Ok(length) | Err(Cut { length })) = console::read_input(expected, &mut listing);
    rt.write_all(if out[..done.listing] == listing[..length] {
        b" same: "
    } else {
        b" differs: "
    })?;
    rt.write_all(&line[..done.summary])
}

// The line of a pair of files.
fn compare(rt: &HostRuntime, recording: &str, expected: &str) -> io::Result<()> {
    rt.write_all(recording.as_bytes())?;
    match (fs::open(rt, recording), fs::open(rt, expected)) {
        (Ok(mut recording), Ok(mut expected)) => {
            compare_files(rt, &mut recording, &mut expected)
        }
        _ => rt.write_all(b" missing\n"),
    }
}

fn main(rt: HostRuntime) -> io::Result<()> {
    let mut waiting: Option<String> = None;
    // The first argument is the program's own name.
    for name in env::args(&rt)?.skip(1) {
        match waiting.take() {
            None => waiting = Some(name),
            Some(recording) => compare(&rt, &recording, &name)?,
        }
    }
    match waiting {
        Some(recording) => compare(&rt, &recording, ""),
        None => Ok(()),
    }
}
