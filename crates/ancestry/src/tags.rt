// What a tag stands for.
ghost use Rattle.std.specs.Prelude.{◌≡◌};
ghost use Rattle.ancestry.specs.Tags.{named_by, peel};

use git_object::ObjectId;
use ref_store::Lens;

/// What an id stands for: of a tag what it names, of that again where it is a tag, and so on; of anything
/// else itself. It costs a look-up a tag, and ends after as many steps as there are objects.
pub fn peel(lens: &Lens, id: ObjectId) -> ObjectId
    ensures { result ≡ peel lens.now id }
{
    let mut id = id;
    for _step in 0..lens.len() {
        let Some(next) = named_by(lens, id) else {
            return id;
        };
        id = next;
    }
    id
}

fn named_by(lens: &Lens, id: ObjectId) -> Option<ObjectId>
    ensures { result ≡ named_by lens.now id }
{
    let Some(object) = lens.get(id) else {
        return None;
    };
    match object.tag_target() {
        Some((id, _)) => Some(id),
        None => None,
    }
}
