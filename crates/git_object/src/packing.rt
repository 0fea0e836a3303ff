// What one pack may bring.
ghost use Rattle.std.specs.Prelude.{◌≡◌, ◌↔◌, ◌≤◌, All, IsTrue, true};
ghost use Rattle.git_object.specs.Object.{FitOnePack, IsPackable, total_bytes};

use crate::object::ObjectList;

/// How many objects one pack may bring.
pub const MAX_PACKED: usize = 100_000;

/// How many bytes the bodies of all objects of a pack may have together.
pub const MAX_PACKED_BYTES: usize = 268_435_456;

/// Whether one pack may bring these objects. It looks at each.
pub fn fit_one_pack(objects: &ObjectList) -> bool
    ensures { IsTrue result ↔ FitOnePack objects.now }
{
    objects.len() <= MAX_PACKED && are_light(objects)
}

fn are_light(objects: &ObjectList) -> bool
    ensures light { IsTrue result ↔ (total_bytes objects.now ≤ MAX_PACKED_BYTES) }
    ensures formed { result ≡ true → All IsPackable objects.now }
{
    let mut left = MAX_PACKED_BYTES;
    for object in objects.as_slice() {
        let size = object.body().len();
        if left < size {
            return false;
        }
        left -= size;
    }
    true
}
