// The intervals of a text, made ready to print, or its report where it is no trace.
// That the bytes made ready are these is a contract, `render`'s; that they are handed on, and arrive, no contract can say.
ghost use Rattle.std.specs.Prelude.{◌≡◌};
ghost use Rattle.spans.specs.Prints.{printed_text};

use intervals::write_intervals;
use report::report;
use streams::OUTPUT;

// [11.95] [11.65] [7.55] What is printed for a text, in an output with room for any report.
pub(crate) fn render<'a>(text: &[u8], out: &'a mut [u8; OUTPUT]) -> &'a [u8]
    ensures { result.now ≡ printed_text text.now }
{
    let written = write_intervals(text, out);
    if written.code == 0 {
        return &out[..written.time as usize];
    }
    let reported = report(text, out);
    &out[..reported.time as usize]
}
