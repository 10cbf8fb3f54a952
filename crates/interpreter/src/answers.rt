// Answers as text. Each function writes from the output's start on, and answers how many bytes.
ghost use Rattle.std.specs.Prelude.{◌≡◌, ◌≤◌, length};
ghost use Rattle.text.specs.Text.{line_output};
ghost use Rattle.text.specs.Wrote.{Wrote};
ghost use Rattle.interpreter.specs.Script.{answer_text, lookup_text, work_text};
ghost use Rattle.interpreter.specs.Runs.{Roomy};

use model::{Answer, LookupAnswer, WorkAnswer};
use text::{put_found, put_ok, put_refused, put_steps};

pub fn put_answer(output: &mut [u8], line: u64, answer: Answer) -> usize
    requires { line_output ≤ length output.old }
    ensures { Wrote output.old 0 (answer_text line answer) output.new result }
{
    match answer {
        Ok(()) => put_ok(output),
        Err(refusal) => put_refused(output, line, refusal.number()),
    }
}

pub fn put_looked(output: &mut [u8], line: u64, answer: LookupAnswer, places: &[u8]) -> usize
    requires line_output_in_bounds { line_output ≤ length output.old }
    requires roomy { Roomy answer places.now }
    ensures { Wrote output.old 0 (lookup_text line answer places.now)
        output.new result }
{
    match answer {
        Ok(matches) => put_found(output, places, matches),
        Err(refusal) => put_refused(output, line, refusal.number()),
    }
}

pub fn put_worked(output: &mut [u8], line: u64, answer: WorkAnswer) -> usize
    requires { line_output ≤ length output.old }
    ensures { Wrote output.old 0 (work_text line answer) output.new result }
{
    match answer {
        Ok(work) => put_steps(output, work.steps, work.stop.number()),
        Err(refusal) => put_refused(output, line, refusal.number()),
    }
}
