// A script's station, and the lines that lend it memory, alter that behind its back, or show what it holds.
ghost use Rattle.std.specs.Prelude.{◌≡◌, ℕ, ◌<◌, ◌≤◌, true, false, min, take, slice_index};
ghost use Rattle.session.specs.Numbers.{closed, empty_setup};

use crate::output;
use crate::output::Answer;
use crate::script::{Call, Command, Line};
use buffer::{BUFFER_WORDS, Buffer};
use session::{CLEANING, CLOSED, Control, Setup};
use spec::{Refusal, Report};
use std::io;

// The most that is lent: bytes of the image, and words of the key table.
pub const IMAGE_BYTES: usize = 327680;

pub const TABLE_WORDS: usize = 8192;

// The station's record, and the memory lent: so many bytes of the image and words of the table; whether the last call
// left image, table and record as they were; and whether lines are shown before they are played.
#[derive(Clone, Copy)]
pub struct Station {
    pub control: Control,
    pub setup: Setup,
    pub buffer: Buffer,
    pub image: [u8; IMAGE_BYTES],
    pub table: [u64; TABLE_WORDS],
    pub bytes: usize,
    pub words: usize,
    pub kept: bool,
    pub aloud: bool,
}

fn bad(rt: &impl Print) -> io::Result<()> {
    println!(rt; "bad")
}

impl Station {
    // Nothing open, and nothing lent.
    pub fn new() -> Station
        ensures record { (result.control ≡ closed) × (result.setup ≡ empty_setup) }
        ensures lent { (result.bytes ≡ 0) × (result.words ≡ 0) }
        ensures marks { (result.kept ≡ true) × (result.aloud ≡ false) }
    {
        Station {
            control: session::closed(),
            setup: session::empty_setup(),
            buffer: [0; BUFFER_WORDS],
            image: [0; IMAGE_BYTES],
            table: [0; TABLE_WORDS],
            bytes: 0,
            words: 0,
            kept: true,
            aloud: false,
        }
    }

    // How much of the image and of the table is lent.
    pub fn lent(&self) -> (usize, usize)
        ensures bytes { result.0 ≤ IMAGE_BYTES }
        ensures words { result.1 ≤ TABLE_WORDS }
    {
        (self.bytes.min(IMAGE_BYTES), self.words.min(TABLE_WORDS))
    }

    fn lent_image(&self) -> &[u8] {
        &self.image[..self.bytes.min(IMAGE_BYTES)]
    }

    fn lent_table(&self) -> &[u64]
        ensures { result.now ≡ take (min self.now.words TABLE_WORDS) self.now.table }
    {
        &self.table[..self.words.min(TABLE_WORDS)]
    }

    // LENT ANEW
    // An image of so many bytes, all zero.
    fn lend_image(&mut self, bytes: usize) {
        self.image.fill(0);
        self.bytes = bytes;
    }

    fn image_line(&mut self, rt: &impl Print, bytes: u64) -> io::Result<()> {
        if bytes > IMAGE_BYTES as u64 {
            return bad(rt);
        }
        self.lend_image(bytes as usize);
        println!(rt; "image {bytes}")
    }

    // A key table of so many words, all zero.
    fn table_line(&mut self, rt: &impl Print, words: u64) -> io::Result<()> {
        if words > TABLE_WORDS as u64 {
            return bad(rt);
        }
        self.table.fill(0);
        self.words = words as usize;
        println!(rt; "table {words}")
    }

    // Both, as much as there is; the table's words hold what they held.
    fn lend_line(&mut self, bytes: u64, words: u64) {
        self.lend_image((bytes as usize).min(IMAGE_BYTES));
        self.words = (words as usize).min(TABLE_WORDS);
    }

    // A record with nothing open.
    fn record_line(&mut self, rt: &impl Print) -> io::Result<()> {
        self.control = session::closed();
        self.setup = session::empty_setup();
        self.buffer = [0; BUFFER_WORDS];
        self.kept = true;
        println!(rt; "record")
    }

    // BEHIND ITS BACK
    // So many words of the image from one on become a value, as far as it has them.
    fn fill_line(&mut self, from: usize, count: usize, value: u64) {
        let bytes = self.bytes.min(IMAGE_BYTES);
        let image = &mut self.image[..bytes];
        for w in from..from.saturating_add(count).min(bytes / 8) {
            words::save(image, w, value);
        }
    }

    fn poke_line(&mut self, rt: &impl Print, word: usize, value: u64) -> io::Result<()> {
        if self.bytes / 8 <= word {
            return bad(rt);
        }
        self.fill_line(word, 1, value);
        println!(rt; "poke")
    }

    // SHOWN
    fn word_line(&self, rt: &impl Print, word: u64) -> io::Result<()> {
        let value = words::load(self.lent_image(), word as usize);
        println!(rt; "word {word} {value}")
    }

    fn sum_line(&self, rt: &impl Print) -> io::Result<()> {
        println!(rt; "sum {}", output::image_sum(self.lent_image()))
    }

    // The known keys of an open register.
    fn keys_line(&self, rt: &impl Print) -> io::Result<()> {
        if self.control.phase == CLOSED {
            return println!(rt; "refused 2");
        }
        println!(rt; "keys {}", self.control.keys)
    }

    fn kept_line(&self, rt: &impl Print) -> io::Result<()> {
        println!(rt; "{}", if self.kept { "kept" } else { "changed" })
    }

    // Where the value's part starts, its length and its sum, and behind them its version where it is asked for.
    fn look_line(&self, rt: &impl Print, key: u64, with_version: bool) -> io::Result<()> {
        let (image, table) = (self.lent_image(), self.lent_table());
        let (control, setup) = (self.control, self.setup);
        let mut answer = 0;
        let mut version = 0;
        let value = lookup::look_up_core(
            control,
            setup,
            image,
            table,
            key,
            &mut answer,
            &mut version,
        );
        if answer != 0 {
            return println!(rt; "refused {answer}");
        }
        let start = match lookup::locate(control, setup, image, table, key) {
            Ok(part) => part.start,
            Err(_) => 0,
        };
        let sum = output::value_sum(value);
        print!(rt; "value {start} {} {sum}", value.len())?;
        if with_version {
            print!(rt; " {version}")?;
        }
        println!(rt)
    }

    // The value's length, its sum and its first sixteen bytes.
    fn show_line(&self, rt: &impl Print, key: u64) -> io::Result<()> {
        let (image, table) = (self.lent_image(), self.lent_table());
        let (control, setup) = (self.control, self.setup);
        let mut answer = 0;
        let mut version = 0;
        let value = lookup::look_up_core(
            control,
            setup,
            image,
            table,
            key,
            &mut answer,
            &mut version,
        );
        if answer == session::number(Refusal::KeyAbsent) {
            return println!(rt; "absent {key}");
        }
        if answer != 0 {
            return println!(rt; "refused {answer}");
        }
        let sum = output::value_sum(value);
        print!(rt; "value {key} {} {sum}", value.len())?;
        if !value.is_empty() {
            print!(rt; " ")?;
        }
        for b in value.iter().take(16) {
            print!(rt; "{b:02x}")?;
        }
        println!(rt)
    }

    // CALLS
    // Whether all is as it was; says so only of equal lists.
    fn is_as(&self, old: &Station) -> bool
        ensures record { result ≡ true → self.now.buffer ≡ old.now.buffer }
        ensures image { result ≡ true → self.now.image ≡ old.now.image }
        ensures table { result ≡ true → self.now.table ≡ old.now.table }
    {
        self.control == old.control
            && self.setup == old.setup
            && self.buffer == old.buffer
            && self.image == old.image
            && self.table == old.table
    }

    // What a refused opening leaves: nothing open, the image as it was, and a table of zeros; says so only of these.
    fn is_closed_over(&self, old: &Station) -> bool
        ensures closed { result ≡ true → self.now.control.phase ≡ CLOSED }
        ensures image { result ≡ true → self.now.image ≡ old.now.image }
        ensures zeros { result ≡ true → (k : ℕ) → k < min self.now.words TABLE_WORDS → slice_index self.now.table k ≡ 0 }
    {
        self.control.phase == CLOSED
            && self.image == old.image
            && self.lent_table().iter().all(|word| *word == 0)
    }

    // A call, and what it answers; and `changed` where it was refused and did not leave what a refused call leaves.
    fn call_line(
        &mut self,
        rt: &impl Print,
        call: Call,
        numbers: [Option<u64>; 4],
    ) -> io::Result<()> {
        let old = *self;
        let report = self.asked(rt, call, numbers)?;
        self.kept = if call == Call::Open {
            self.is_closed_over(&old)
        } else {
            self.is_as(&old)
        };
        let cleaning = old.control.phase == CLEANING;
        println!(rt; "{}", Answer { report, cleaning })?;
        if matches!(report, Report::Refused(_)) && !self.kept {
            println!(rt; "changed")?;
        }
        Ok(())
    }

    // ONE LINE
    // A line that starts with `#` is shown as it is; the word of any other is a command, or the line is bad. Where
    // lines are shown, it stands behind `> ` first.
    pub fn play(&mut self, rt: &impl Print, text: &[u8]) -> io::Result<()> {
        let noted = text.starts_with(b"#");
        if self.aloud && !noted {
            print!(rt; "> ")?;
            rt.write_all(text)?;
        }
        let line = Line::read(text);
        let Some(command) = line.command else {
            return if noted { rt.write_all(text) } else { bad(rt) };
        };
        let first = line.numbers[0].unwrap_or(0);
        let second = line.numbers[1].unwrap_or(0);
        let third = line.numbers[2].unwrap_or(0);
        match command {
            Command::Image => self.image_line(rt, first),
            Command::Table => self.table_line(rt, first),
            Command::Lend => {
                self.lend_line(first, second);
                Ok(())
            }
            Command::Record => self.record_line(rt),
            Command::Poke => self.poke_line(rt, first as usize, second),
            Command::Fill => {
                self.fill_line(first as usize, second as usize, third);
                Ok(())
            }
            Command::Word => self.word_line(rt, first),
            Command::Sum => self.sum_line(rt),
            Command::Keys => self.keys_line(rt),
            Command::Kept => self.kept_line(rt),
            Command::Look | Command::LookVersion => {
                self.look_line(rt, first, command == Command::LookVersion)?;
                self.kept = true;
                Ok(())
            }
            Command::Show => self.show_line(rt, first),
            Command::Aloud => {
                self.aloud = true;
                Ok(())
            }
            Command::Call(call) => self.call_line(rt, call, line.numbers),
        }
    }
}
