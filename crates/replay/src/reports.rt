// The report of a text, made ready to print.
// That the bytes made ready are the report is a contract, `render`'s; that they are handed on, and arrive, no contract can say.
ghost use Rattle.std.specs.Prelude.{◌≡◌};
ghost use Rattle.model.specs.Reports.{report_text};

use streams::OUTPUT;

// [7.10] [7.55] The report of a text, in an output with room for any.
pub(crate) fn render<'a>(text: &[u8], out: &'a mut [u8; OUTPUT]) -> &'a [u8]
    ensures { result.now ≡ report_text text.now }
{
    let answer = report::report(text, out);
    &out[..answer.time as usize]
}
