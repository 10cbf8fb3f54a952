// The fill gauge: held entries against buckets, and against the room of the pages that stand in chains.
#![tactic(auto)]

mod pages; // pages.rt: the pages that stand in chains

ghost use Rattle.std.specs.Prelude.{◌≡◌, ◌<◌};
ghost use Rattle.image.specs.Decode.{decode};
ghost use Rattle.view.specs.Reads.{Reads};
ghost use Rattle.gauge.specs.Gauge.{quotient, gauge_of, gauge_outcome};

use image::Meta;
use index::tests::test_store;
use meta::read_meta;
use model::Answer;
use pages::count_pages;
use store::block_at;

// Held entries divided by buckets, and by 40 times the pages that stand in chains.
#[derive(Clone, Copy)]
pub struct Gauge {
    pub per_bucket: f64,
    pub per_page: f64,
}

// The answer, and the gauge: both of its numbers are 0 on a refusal.
#[derive(Clone, Copy)]
pub struct GaugeAnswer {
    pub answer: Answer,
    pub gauge: Gauge,
}

// The quotient of two whole numbers, rounded once: as every u32, both are binary64 numbers exactly.
fn divide(a: u32, b: u32) -> f64
    requires { 0 < b }
    ensures { result ≡ quotient a b }
{
    a as f64 / b as f64
}

// The gauge of a store that passed the tests.
fn gauge_of(store: &[u8], m: Meta) -> Gauge
    requires { Reads store.now m }
    ensures { result ≡ gauge_of (decode store.now) }
{
    let buckets = m.max + 1;
    let room = 40 * count_pages(store, m);
    Gauge {
        per_bucket: divide(m.count, buckets),
        per_page: divide(m.count, room),
    }
}

// The gauge: refusals 1, 3 and 4, and then both are 0.
pub fn read_gauge(store: &[u8]) -> GaugeAnswer
    ensures { result ≡ gauge_outcome store.now }
{
    match test_store(store) {
        Err(refusal) => GaugeAnswer {
            answer: Err(refusal),
            gauge: Gauge {
                per_bucket: 0.0,
                per_page: 0.0,
            },
        },
        Ok(()) => {
            let m = read_meta(block_at(store, 0));
            GaugeAnswer {
                answer: Ok(()),
                gauge: gauge_of(store, m),
            }
        }
    }
}
