// Program: prints the block size that holds 0 to 256 units of a large chunk, one a line; 0 where there is none.
#![tactic(auto)]

ghost use Rattle.std.specs.Prelude.{◌≡◌, []};
ghost use Rattle.text.specs.Text.{Writes};
ghost use Rattle.sizes.specs.Table.{line_text, table_text};

use spec::Size;
use std::process::ExitCode;
use text::Text;

// The units of a large chunk and one more: so many lines.
const LINES: usize = 257;

// Room for so many lines of any number.
const TEXT_BYTES: usize = 5397;

fn put_line(out: &mut Text<TEXT_BYTES>, units: usize)
    ensures { Writes TEXT_BYTES out.old out.new (line_text units) }
{
    out.put_decimal(codec::block_size_for_units(Size::Large, units));
    out.put_bytes(b"\n");
}

// The table as text, in a text that is lent with no bytes yet.
fn put_table(out: &mut Text<TEXT_BYTES>)
    requires { out.old ≡ [] }
    ensures { out.new ≡ table_text }
{
    for units in 0..LINES {
        put_line(out, units);
    }
}

// Where not all could be printed, standard error says so, and the exit status is that of a failure.
fn main(rt: HostRuntime) -> ExitCode {
    let mut out = Text::new();
    put_table(&mut out);
    if rt.write_all(out.as_bytes()).is_ok() {
        return ExitCode::SUCCESS;
    }
    let _ = eprint!(rt; "sizes: not all of it could be printed\n");
    ExitCode::FAILURE
}
