// The text that the programs `list` and `sheet` print of an image: its present keys with what is listed of each, one
// below the other or in pages, or its refusal; line by line, and what both programs do.
#![tactic(auto)]

ghost use Rattle.std.specs.Prelude.{◌≤◌, suc, ◌≡◌, [], length};
ghost use Rattle.text.specs.Text.{most_digits, Writes};
ghost use Rattle.printing.specs.Lines.{refused_text, count_text, place_text, column_text, line_text, heading_text, page_text, break_text, head_text, entry_text};
ghost use Rattle.std.specs.Counts.{IsPrefixLen};
ghost use Rattle.printing.specs.Print.{image_text, read_most, table_words, text_bytes, Key, Keys, Register, Image};

use buffer::{BUFFER_WORDS, Buffer};
use lookup::Listing;
use session::{Control, Setup};
use spec::{Refusal, Report};
use std::io::Read;
use std::process::ExitCode;
use text::Text;

// How the keys are laid out: one line below the other, as `list` has them, or in columns and pages, as the sheet has.
#[derive(Clone, Copy, PartialEq, Eq, Debug)]
pub enum Layout {
    Lines,
    Pages,
}

// The sheet's columns, and the rows of a page.
const KEY_COLUMNS: usize = 20;

const VERSION_COLUMNS: usize = 7;

const LENGTH_COLUMNS: usize = 5;

const PAGE_ROWS: usize = 50;

pub fn put_refusal<const N: usize>(out: &mut Text<N>, refusal: Refusal)
    ensures { Writes N out.old out.new (refused_text refusal) }
{
    out.put_bytes(b"refused ");
    out.put_decimal(session::number(refusal));
    out.put_bytes(b"\n");
}

fn put_count<const N: usize>(out: &mut Text<N>, keys: u64)
    ensures { Writes N out.old out.new (count_text keys) }
{
    out.put_bytes(b"keys ");
    out.put_decimal(keys);
    out.put_bytes(b"\n");
}

// Whether the value is in the log or in a block.
fn put_place<const N: usize>(out: &mut Text<N>, block: bool)
    ensures { Writes N out.old out.new (place_text block) }
{
    if block {
        out.put_bytes(b" B\n");
    } else {
        out.put_bytes(b" L\n");
    }
}

// A number, on the sheet right-aligned in its columns.
fn put_column<const N: usize>(out: &mut Text<N>, layout: Layout, width: usize, number: u64)
    requires { width ≤ most_digits }
    ensures { Writes N out.old out.new (column_text layout width number) }
{
    match layout {
        Layout::Lines => out.put_decimal(number),
        Layout::Pages => out.put_right(number, width),
    }
}

fn put_line<const N: usize>(out: &mut Text<N>, layout: Layout, key: u64, listing: Listing)
    ensures { Writes N out.old out.new (line_text layout key listing) }
{
    put_column(out, layout, KEY_COLUMNS, key);
    out.put_bytes(b" ");
    put_column(out, layout, VERSION_COLUMNS, listing.version);
    out.put_bytes(b" ");
    put_column(out, layout, LENGTH_COLUMNS, listing.length);
    put_place(out, listing.block);
}

fn put_heading<const N: usize>(out: &mut Text<N>)
    ensures { Writes N out.old out.new heading_text }
{
    out.put_bytes(b"                 KEY VERSION BYTES P\n");
}

// A form feed and the heading, where the rows before fill their pages.
fn put_page<const N: usize>(out: &mut Text<N>, row: usize)
    ensures { Writes N out.old out.new (page_text row) }
{
    if row != 0 && row % PAGE_ROWS == 0 {
        out.put_bytes(b"\x0c");
        put_heading(out);
    }
}

fn put_break<const N: usize>(out: &mut Text<N>, layout: Layout, row: usize)
    ensures { Writes N out.old out.new (break_text layout row) }
{
    match layout {
        Layout::Lines => {}
        Layout::Pages => put_page(out, row),
    }
}

// What stands first: the number of keys, or on the sheet the heading.
pub fn put_head<const N: usize>(out: &mut Text<N>, layout: Layout, keys: u64)
    ensures { Writes N out.old out.new (head_text layout keys) }
{
    match layout {
        Layout::Lines => put_count(out, keys),
        Layout::Pages => put_heading(out),
    }
}

// What is printed of a key with so many rows before it.
pub fn put_entry<const N: usize>(
    out: &mut Text<N>,
    layout: Layout,
    row: usize,
    key: u64,
    listing: Listing,
)
    ensures { Writes N out.old out.new (entry_text layout row key listing) }
{
    put_break(out, layout, row);
    put_line(out, layout, key, listing);
}

// An open register: the small parts of its record, its image and its key table.
#[derive(Clone, Copy)]
struct Open<'a> {
    control: Control,
    setup: Setup,
    image: &'a [u8],
    table: &'a [u64],
}

// The line of a key that comes behind so many others, none where it is absent.
fn put_key<const N: usize>(register: Open, key: u64, layout: Layout, row: usize, out: &mut Text<N>)
    ensures { Key N register.entry.control register.entry.setup key layout row register.entry.image.now register.entry.table.now out.old out.new }
{
    if let Ok(listing) = lookup::list_key(
        register.control,
        register.setup,
        register.image,
        register.table,
        key,
    ) {
        put_entry(out, layout, row, key, listing);
    }
}

// The lines of keys.
fn put_keys<const N: usize>(register: Open, keys: &[u64], layout: Layout, out: &mut Text<N>)
    ensures { Keys N register.entry.control register.entry.setup register.entry.image.now register.entry.table.now keys.now layout out.old out.new }
{
    for (row, &key) in keys.iter().enumerate() {
        put_key(register, key, layout, row, out);
    }
}

// The text of an open register.
fn put_register<const N: usize>(register: Open, keys: &mut [u64], layout: Layout, out: &mut Text<N>)
    ensures { Register N register.entry.control register.entry.setup layout register.entry.image.now register.entry.table.now keys.old out.old out.new }
{
    match lookup::list_keys(
        register.control,
        register.setup,
        register.image,
        register.table,
        keys,
    ) {
        Err(refusal) => put_refusal(out, refusal),
        Ok(count) => {
            put_head(out, layout, count as u64);
            put_keys(register, &keys[..count.min(keys.len())], layout, out);
        }
    }
}

// The text of an image, as a list or in pages, with lent memory for its key table, the record's buffer and the keys.
fn list_image<const N: usize>(
    image: &[u8],
    table: &mut [u64],
    buffer: &mut Buffer,
    keys: &mut [u64],
    layout: Layout,
    out: &mut Text<N>,
)
    ensures { Image N layout image.now table.old buffer.old keys.old out.old out.new }
{
    let opened = opening::open_core(
        session::closed(),
        session::empty_setup(),
        buffer,
        image,
        table,
    );
    match opened.report {
        Report::Refused(refusal) => put_refusal(out, refusal),
        _ => {
            let register = Open {
                control: opened.control,
                setup: opened.setup,
                image,
                table,
            };
            put_register(register, keys, layout, out);
        }
    }
}

// One byte more than an image may have: a longer one has no allowed length then.
const READ_BYTES: usize = 65537;

// The table, the keys that it holds, and room for the sheet of so many.
const TABLE_WORDS: usize = 8192;

const TABLE_KEYS: usize = 2048;

const TEXT_BYTES: usize = 210984;

// The text of an image, with the table of a program, in a text that is lent with no bytes yet.
fn image_text<const N: usize>(image: &[u8], layout: Layout, out: &mut Text<N>)
    requires room { N ≡ text_bytes }
    requires empty { out.old ≡ [] }
    ensures { out.new ≡ image_text layout image.now table_words }
{
    let mut table = [0; TABLE_WORDS];
    let mut buffer = [0; BUFFER_WORDS];
    let mut keys = [0; TABLE_KEYS];
    list_image(image, &mut table, &mut buffer, &mut keys, layout, out);
}

// Reads an image; how many bytes. There is room for one byte more than an image may have.
fn read_image<R: Read>(input: &mut R, image: &mut [u8]) -> usize
    requires { length image.old ≡ suc read_most }
    ensures { IsPrefixLen result image.new }
{
    text::read_full(input, image)
}

// Prints the text of the image on standard input. Where not all could be printed, standard error says so, under the
// program's name, and the exit status is that of a failure.
fn print(rt: &(impl Input + Print + Eprint), layout: Layout, name: &str) -> ExitCode {
    let mut image = [0; READ_BYTES];
    let mut out: Text<TEXT_BYTES> = Text::new();
    let n = read_image(&mut rt.reader(), &mut image);
    image_text(&image[..n], layout, &mut out);
    if rt.write_all(out.as_bytes()).is_ok() {
        return ExitCode::SUCCESS;
    }
    let _ = eprint!(rt; "{name}: not all of it could be printed\n");
    ExitCode::FAILURE
}

// THE PROGRAMS.
pub fn print_list(rt: &(impl Input + Print + Eprint)) -> ExitCode {
    print(rt, Layout::Lines, "list")
}

pub fn print_sheet(rt: &(impl Input + Print + Eprint)) -> ExitCode {
    print(rt, Layout::Pages, "sheet")
}
