// What planners share. specs/ say what a planned change, put, call and step come to: planning reads the store, edits a
// draft that is lent, and writes nothing to the store.
#![tactic(auto)]

ghost use Rattle.std.specs.Prelude.{◌≡◌};
ghost use Rattle.plan.specs.Fields.{fields_of};

use image::Meta;

// The meta block's fields with another count, first free and spares.
pub fn with_fields(m: Meta, count: u32, free: u32, spares: [u32; 16]) -> Meta
    ensures { result ≡ fields_of m count free spares }
{
    let mut n = m;
    n.count = count;
    n.free = free;
    n.spares = spares;
    n
}
