// What standing writes to its result slice.
ghost use Rattle.std.specs.Prelude.{◌≡◌, ◌++◌, ◌≤◌, length, drop};
ghost use Rattle.std.proofs.lemmas.List.Edits.{sets};
ghost use Rattle.model.specs.Answers.{phase_no, phase_old, phase_new};
ghost use Rattle.amiqsovik.specs.Result.{slack_bytes, standing_bytes, shown};

use endian::put_u32;
use model::{Phase, Standing, StandingAnswer};

// The phase's number and its two bucket numbers.
fn phase_numbers(phase: Phase) -> (u32, u32, u32)
    ensures { result ≡ (phase_no phase, phase_old phase, phase_new phase) }
{
    match phase {
        Phase::None => (0, 0, 0),
        Phase::Copying { old, new } => (1, old, new),
        Phase::Clearing { old, new } => (2, old, new),
    }
}

fn put_slack(res: &mut [u8], slack: i64)
    requires { 28 ≤ length res.old }
    ensures { res.new ≡ sets res.old 20 (slack_bytes slack) }
{
    let bits = slack.cast_unsigned();
    put_u32(res, 20, (bits % 4294967296) as u32);
    put_u32(res, 24, (bits / 4294967296) as u32);
}

fn put_standing(res: &mut [u8], standing: Standing)
    requires { 28 ≤ length res.old }
    ensures { res.new ≡ standing_bytes standing ++ drop 28 res.old }
{
    let (number, old, new) = phase_numbers(standing.phase);
    put_u32(res, 0, standing.count);
    put_u32(res, 4, standing.buckets);
    put_u32(res, 8, number);
    put_u32(res, 12, old);
    put_u32(res, 16, new);
    put_slack(res, standing.slack);
}

// Writes what stands; a refusal leaves the slice as it was.
pub fn show(res: &mut [u8], answer: StandingAnswer)
    requires { 28 ≤ length res.old }
    ensures { res.new ≡ shown answer res.old }
{
    if let Ok(standing) = answer {
        put_standing(res, standing);
    }
}
