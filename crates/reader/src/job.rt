// The pending job, by the flags of the pages of its two buckets.
ghost use Rattle.std.specs.Prelude.{◌≡◌};
ghost use Rattle.reader.specs.Known.{Known2};
ghost use Rattle.reader.specs.Job.{phase_at};

use crate::buckets::bucket_flags;
use address::parent_of;
use image::Meta;
use model::Phase;
use store::flags::{CLEANUP, POPULATED};

pub fn read_job(store: &[u8], m: Meta) -> Phase
    requires { Known2 store.now m }
    ensures { result ≡ phase_at store.now }
{
    let new = m.max;
    let old = parent_of(new);
    if bucket_flags(store, m, new) == POPULATED {
        return Phase::Copying { old, new };
    }
    if bucket_flags(store, m, old) == CLEANUP {
        return Phase::Clearing { old, new };
    }
    Phase::None
}
