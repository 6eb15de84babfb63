// The calls that a script's commands name, on what the station has lent: the cores, with the record's small parts by
// value and its buffer lent. tests/scripts.py has the commands.
use crate::output;
use crate::script::Call;
use crate::station::Station;
use session::{Outcome, Setup, Stepped};
use spec::Report;
use std::io;

// The most bytes of a put's value.
const VALUE_BYTES: usize = 65536;

// The power of the chunks, where a format names none.
const POWER: u64 = 12;

// A staged delete and a step change the control alone.
fn changed(setup: Setup, step: Stepped) -> Outcome {
    Outcome {
        control: step.control,
        setup,
        report: step.report,
    }
}

// Bytes counted up from one, modulo 256.
fn counted_up(first: u64) -> [u8; VALUE_BYTES] {
    let mut value = [0; VALUE_BYTES];
    let mut next = (first % 256) as u8;
    for b in value.iter_mut() {
        *b = next;
        next = next.wrapping_add(1);
    }
    value
}

fn is_last(report: Report) -> bool {
    matches!(report, Report::End(_) | Report::Idle | Report::Refused(_))
}

impl Station {
    // The call, with the numbers behind its word: what it answers.
    pub fn asked(
        &mut self,
        rt: &impl Print,
        call: Call,
        numbers: [Option<u64>; 4],
    ) -> io::Result<Report> {
        if call == Call::Run {
            return self.run(rt);
        }
        Ok(self.answer(call, numbers))
    }

    // Steps up to an end, idle or a refusal: how many, and the sum over their reports. No call has 1,000 actions.
    fn run(&mut self, rt: &impl Print) -> io::Result<Report> {
        let mut sum: u64 = 0;
        for steps in 0..1000 {
            let report = self.answer(Call::Step, [None; 4]);
            sum = output::report_sum(sum, report);
            if is_last(report) {
                println!(rt; "ran {} {sum}", steps + 1)?;
                return Ok(report);
            }
        }
        Ok(Report::Fence)
    }

    // One call of the cores.
    fn answer(&mut self, call: Call, numbers: [Option<u64>; 4]) -> Report {
        let (bytes, words) = self.lent();
        let (control, setup) = (self.control, self.setup);
        let buffer = &mut self.buffer;
        let image = &mut self.image[..];
        let image = &mut image[..bytes];
        let table = &mut self.table[..];
        let table = &mut table[..words];
        let [first, second, third, fourth] = numbers;
        let key = first.unwrap_or(0);
        let outcome = match call {
            Call::Open => opening::open_core(control, setup, buffer, image, table),
            Call::Format => {
                let power = third.unwrap_or(POWER);
                formatting::format_core(control, setup, buffer, image, table, power, first, second)
            }
            Call::Put | Call::PutAt => {
                let (version, length, from) = if call == Call::PutAt {
                    (second, third, fourth)
                } else {
                    (None, second, third)
                };
                let value = counted_up(from.unwrap_or(0));
                let length = (length.unwrap_or(0) as usize).min(VALUE_BYTES);
                let value = &value[..length];
                staging::put_core(control, setup, buffer, image, table, key, value, version)
            }
            Call::Delete | Call::DeleteAt => {
                let version = if call == Call::DeleteAt { second } else { None };
                let step = staging::delete_core(control, setup, buffer, image, table, key, version);
                changed(setup, step)
            }
            Call::Commit => committing::commit_core(control, setup, buffer, image, table),
            Call::Abandon => staging::abandon_core(control, setup, buffer, image, table),
            Call::Choose => Outcome {
                control,
                setup,
                report: choosing::choose_core(control, setup, *buffer, image, table),
            },
            Call::Clean => {
                cleaning::clean_core(control, setup, buffer, image, table, key as usize)
            }
            Call::Step | Call::Run => {
                changed(
                    setup,
                    stepping::step_core(control, setup, buffer, image, table),
                )
            }
        };
        self.control = outcome.control;
        self.setup = outcome.setup;
        outcome.report
    }
}
