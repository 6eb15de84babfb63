// Lines of a script: a word and up to four numbers, separated by single blanks.

// WORDS
// A call on the station.
#[derive(Clone, Copy, PartialEq, Eq, Debug)]
pub enum Call {
    Format,
    Open,
    Put,
    PutAt,
    Delete,
    DeleteAt,
    Commit,
    Abandon,
    Choose,
    Clean,
    Step,
    Run,
}

// What a line of a script asks for.
#[derive(Clone, Copy, PartialEq, Eq, Debug)]
pub enum Command {
    Image,
    Table,
    Lend,
    Record,
    Poke,
    Fill,
    Word,
    Sum,
    Keys,
    Kept,
    Look,
    LookVersion,
    Show,
    Aloud,
    Call(Call),
}

// A command by its word; of a longer word the last eight letters count.
fn command_of(word: &[u8]) -> Option<Command> {
    let command = match &word[word.len().saturating_sub(8)..] {
        b"image" => Command::Image,
        b"table" => Command::Table,
        b"lend" => Command::Lend,
        b"record" => Command::Record,
        b"poke" => Command::Poke,
        b"fill" => Command::Fill,
        b"word" => Command::Word,
        b"sum" => Command::Sum,
        b"keys" => Command::Keys,
        b"kept" => Command::Kept,
        b"look" => Command::Look,
        b"lookv" => Command::LookVersion,
        b"show" => Command::Show,
        b"aloud" => Command::Aloud,
        b"format" => Command::Call(Call::Format),
        b"open" => Command::Call(Call::Open),
        b"put" => Command::Call(Call::Put),
        b"putat" => Command::Call(Call::PutAt),
        b"delete" => Command::Call(Call::Delete),
        b"deleteat" => Command::Call(Call::DeleteAt),
        b"commit" => Command::Call(Call::Commit),
        b"abandon" => Command::Call(Call::Abandon),
        b"choose" => Command::Call(Call::Choose),
        b"clean" => Command::Call(Call::Clean),
        b"step" => Command::Call(Call::Step),
        b"run" => Command::Call(Call::Run),
        _ => return None,
    };
    Some(command)
}

// LINES
// A line: its command, if its word is one, and the numbers behind the word.
#[derive(Clone, Copy)]
pub struct Line {
    pub command: Option<Command>,
    pub numbers: [Option<u64>; 4],
}

// Behind one byte, if the text begins with it.
fn behind(text: &[u8], b: u8) -> &[u8] {
    match text {
        [first, rest @ ..] if *first == b => rest,
        _ => text,
    }
}

// The number behind a blank, none where `-` stands; and the text behind it.
fn next_number(text: &[u8]) -> (Option<u64>, &[u8]) {
    let (number, rest) = text::number(behind(text, b' '));
    if number.is_none() {
        return (None, behind(rest, b'-'));
    }
    (number, rest)
}

impl Line {
    pub fn read(line: &[u8]) -> Line {
        let letters = line
            .iter()
            .position(|b| !b.is_ascii_lowercase())
            .unwrap_or(line.len());
        let (word, rest) = line.split_at(letters);
        let (first, rest) = next_number(rest);
        let (second, rest) = next_number(rest);
        let (third, rest) = next_number(rest);
        let (fourth, _) = next_number(rest);
        Line {
            command: command_of(word),
            numbers: [first, second, third, fourth],
        }
    }
}
