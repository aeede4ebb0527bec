// Reads a recording on standard input and prints the spans in which windows sold on standard output, or what `replay` prints where the
// recording is faulty. It reads as much as `replay` does, and tells on standard error what it cannot read or write.
#![tactic(auto)]

mod prints;

ghost use Rattle.spans.specs.Prints.{printed_text};

use streams::{OUTPUT, Render};

// The spans of a text, or its report.
struct Spans;

impl Render for Spans {
    ghost rendered = { printed_text };

    fn render<'a>(&self, text: &[u8], out: &'a mut [u8; OUTPUT]) -> &'a [u8] {
        prints::render(text, out)
    }
}

fn main(rt: HostRuntime) {
    streams::run(&rt, &mut rt.stdin(), "spans", "the spans", &Spans);
}
