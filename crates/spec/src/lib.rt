// The declared types that the definitions and the contracts speak of: what words say, and what calls answer.
#![tactic(auto)]

// The size of a chunk: 4,096 bytes, or 65,536. Code is told it by value, so that its numbers are literals of two cases;
// the definitions have the power of two.
#[derive(Clone, Copy, PartialEq, Eq, Debug)]
pub enum Size {
    Small,
    Large,
}

// What a directory word says of its chunk: free, a log chunk with its committed lines, a data chunk with its block size
// in units.
#[derive(Clone, Copy, PartialEq, Eq, Debug)]
pub enum Role {
    Free,
    Log(u64),
    Data(u64),
    Wrong,
}

// What the first word of an entry says: `field` is the value's length or the pointer. `op` and `placement` are the
// numbers that the image has, which the definitions of the format speak of: 1 put, 2 delete; 0 in the log, 1 in a
// block.
#[derive(Clone, Copy, PartialEq, Eq, Debug)]
pub enum FirstWord {
    Padding,
    Wrong,
    Entry {
        op: u64,
        placement: u64,
        version: u64,
        field: u64,
    },
}

// What stands at a place of the log: `words` is how many words follow the key.
#[derive(Clone, Copy, PartialEq, Eq, Debug)]
pub enum LogStep {
    End,
    Padding,
    Wrong,
    Entry {
        op: u64,
        placement: u64,
        version: u64,
        field: u64,
        key: u64,
        words: usize,
    },
}

// Why a call is turned down, 1 to 17 in the order of the rules' table.
#[derive(Clone, Copy, PartialEq, Eq, Debug)]
pub enum Refusal {
    ImageLength,
    NotOpen,
    DirectoryWrong,
    EntryWrong,
    BlockWrong,
    TopsDisagree,
    TableFull,
    Unfinished,
    TooLong,
    BatchFull,
    KeyAbsent,
    VersionSpent,
    NoSpace,
    NothingStaged,
    BatchStaged,
    NotCleanable,
    OtherVersion,
}

// What a call answers. `Begun` has the number of actions, `End` the entries copied (0 but for a cleaning),
// `Part` the first byte and the length of the part of the image that holds a value, and the value's version.
#[derive(Clone, Copy, PartialEq, Eq, Debug)]
pub enum Report {
    Refused(Refusal),
    Begun(usize),
    Store {
        word: usize,
        value: u64,
    },
    Flush(usize),
    Fence,
    End(usize),
    Idle,
    Opened,
    Abandoned,
    Chosen(usize),
    Part {
        start: usize,
        length: usize,
        version: u64,
    },
}
