// Program: plays a script of calls on one station: lends it image, key table and record, and prints what each call
// answers. tests/scripts.py has the commands.
#![tactic(auto)]

mod calls;
mod output;
mod script;
mod station;

use crate::station::Station;
use std::io;

// The most bytes of a script.
const SCRIPT_BYTES: usize = 524288;

// Every line of a script, on a station with nothing open and nothing lent.
fn play(rt: &impl Print, text: &[u8]) -> io::Result<()> {
    let mut station = Station::new();
    for line in text.split_inclusive(|b| *b == b'\n') {
        station.play(rt, line)?;
    }
    Ok(())
}

// Plays the script on standard input: images that are opened, with the values of keys, then the rules' worked cases.
fn main(rt: HostRuntime) -> io::Result<()> {
    let mut text = [0; SCRIPT_BYTES];
    let n = text::read_full(&mut rt.reader(), &mut text);
    play(&rt, &text[..n])
}
