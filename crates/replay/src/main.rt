// Reads a recording on standard input and prints its report on standard output. It reads to the end of the input or, where that is
// too long to be a recording, as far as shows it: one byte more than a recording may have.
//
// What cannot be read or written is told on standard error. The program ends with 0 all the same, so a failed run is known by that
// message; a failed reading prints no report at all, not even the names line.
#![tactic(auto)]

mod reports;

ghost use Rattle.model.specs.Reports.{report_text};

use streams::{OUTPUT, Render};

// The report of a text.
struct Report;

impl Render for Report {
    ghost rendered = { report_text };

    fn render<'a>(&self, text: &[u8], out: &'a mut [u8; OUTPUT]) -> &'a [u8] {
        reports::render(text, out)
    }
}

fn main(rt: HostRuntime) {
    streams::run(&rt, &mut rt.stdin(), "replay", "the report", &Report);
}
