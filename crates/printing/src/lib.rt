// What `report` prints, written into lent buffers.
#![tactic(auto)]

ghost use Rattle.printing.specs.Printing.{WritesReport, PrintsTexts};

use buffer::put::Output;
use buffer::write;
use declare::Refusal;
use notebook::read_notebook;
use run::Run;
use run::record::valid_run;

mod activation; // activation.rt: the lines of activations
mod rules; // rules.rt: the lines of rules
pub mod refused; // refused.rt: the line of a refusal

// The most bytes that are printed.
pub const PRINTED_BYTES: usize = 53792;

// What is printed of the run, closed or not. Refused with 11 or 15.
pub fn write_report(run: Run, out: &mut [u8]) -> Result<usize, Refusal>
    ensures { WritesReport run out.old out.new result }
{
    if !valid_run(run) {
        return Err(Refusal::InvalidRecord);
    }
    let mut text = [0u8; PRINTED_BYTES];
    let mut put = Output {
        bytes: &mut text,
        at: 0,
    };
    rules::put_report(&mut put, &run);
    let length = put.at;
    write(&text[..length], out)
}

// What is printed of a rules text and a cycle text: the verdicts, or the line of the first refusal.
// Refused with 15, a buffer of PRINTED_BYTES never.
pub fn print_texts(rules: &[u8], cycle: &[u8], out: &mut [u8]) -> Result<usize, Refusal>
    ensures { PrintsTexts rules.now cycle.now out.old out.new result }
{
    let read = read_notebook(rules, cycle);
    match read.outcome {
        Ok(()) => write_report(read.run, out),
        Err(cause) => refused::write_refused(
            cause.text,
            cause.refusal.number(),
            cause.line as u32,
            out,
        ),
    }
}
