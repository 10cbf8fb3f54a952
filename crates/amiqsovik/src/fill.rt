// The fill gauge.
ghost use Rattle.std.specs.Prelude.{◌≡◌};
ghost use Rattle.gauge.specs.Gauge.{gauge_outcome};
ghost use Rattle.amiqsovik.specs.Words.{answer_word};
ghost use Rattle.amiqsovik.specs.Result.{gauge_numbers};

use crate::words::answer_word;
use gauge::{Gauge, read_gauge};

// Puts the two numbers of a gauge where the caller wants them.
fn put_gauge(numbers: &mut [f64; 2], gauge: Gauge)
    ensures { numbers.new ≡ gauge_numbers gauge }
{
    numbers[0] = gauge.per_bucket;
    numbers[1] = gauge.per_page;
}

// Writes the gauge to `numbers`; on a refusal, 0 twice.
pub fn amiqsovik_gauge(store: &[u8], numbers: &mut [f64; 2]) -> u64
    ensures value { result ≡ answer_word (gauge_outcome store.now).answer }
    ensures numbers_after { numbers.new ≡ gauge_numbers (gauge_outcome store.now).gauge }
{
    let told = read_gauge(store);
    put_gauge(numbers, told.gauge);
    answer_word(told.answer)
}
