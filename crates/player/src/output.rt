// What a call answers, as a line of text; and sums over words, bytes and reports, modulo 2^64.
use spec::Report;
use std::fmt;

// A report as it is shown: the end of a cleaning with the entries copied.
#[derive(Clone, Copy)]
pub struct Answer {
    pub report: Report,
    pub cleaning: bool,
}

impl fmt::Display for Answer {
    fn fmt<W: fmt::Write>(&self, f: &mut fmt::Formatter<W>) -> fmt::Result {
        match self.report {
            Report::Refused(refusal) => write!(f, "refused {}", session::number(refusal)),
            Report::Begun(actions) => write!(f, "begun {actions}"),
            Report::Store { word, value } => write!(f, "store {word} {value}"),
            Report::Flush(line) => write!(f, "flush {line}"),
            Report::Fence => write!(f, "fence"),
            Report::End(count) if self.cleaning => write!(f, "end {count}"),
            Report::End(_) => write!(f, "end"),
            Report::Idle => write!(f, "idle"),
            Report::Opened => write!(f, "opened"),
            Report::Abandoned => write!(f, "abandoned"),
            Report::Chosen(chunk) => write!(f, "chunk {chunk}"),
            Report::Part {
                start,
                length,
                version,
            } => write!(f, "part {start} {length} {version}"),
        }
    }
}

// SUMS, modulo 2^64
// Over the image's words: the sum so far three times, and the word.
pub fn image_sum(image: &[u8]) -> u64 {
    (0..image.len() / 8).fold(0u64, |sum, w| {
        sum.wrapping_mul(3).wrapping_add(words::load(image, w))
    })
}

// Over a value's bytes: byte i is counted i + 1 times.
pub fn value_sum(value: &[u8]) -> u64 {
    value.iter().enumerate().fold(0u64, |sum, (i, b)| {
        let times = (i as u64).wrapping_add(1);
        sum.wrapping_add(times.wrapping_mul(u64::from(*b)))
    })
}

// Over reports: the sum so far three times, and what the report says; idle and refusals do not count.
pub fn report_sum(sum: u64, report: Report) -> u64 {
    let said = match report {
        Report::Store { word, value } => (word as u64)
            .wrapping_mul(5)
            .wrapping_add(value)
            .wrapping_add(1),
        Report::Flush(line) => (line as u64).wrapping_mul(7).wrapping_add(2),
        Report::Fence => 3,
        Report::End(count) => (count as u64).wrapping_add(4),
        _ => return sum,
    };
    sum.wrapping_mul(3).wrapping_add(said)
}
