// What standing answers.
ghost use Rattle.std.specs.Prelude.{◌≡◌};
ghost use Rattle.image.specs.Decode.{decode};
ghost use Rattle.model.specs.Calls.{standing};
ghost use Rattle.view.specs.Reads.{Reads};

use image::Meta;
use model::Standing;
use reader::job::read_job;

pub fn standing_of(store: &[u8], m: Meta) -> Standing
    requires { Reads store.now m }
    ensures { result ≡ standing (decode store.now) }
{
    let buckets = m.max + 1;
    let wide = m.fill as u32 * buckets;
    Standing {
        count: m.count,
        buckets,
        phase: read_job(store, m),
        slack: wide as i64 - m.count as i64,
    }
}
