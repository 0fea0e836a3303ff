// The tree that an id stands for.
ghost use Rattle.std.specs.Prelude.{◌≡◌, Some};
ghost use Rattle.std.specs.Option.{option_map};
ghost use Rattle.git_object.specs.Commit.{tree_line};
ghost use Rattle.git_object.specs.declared.kind.Kind.TheVariants.{Commit};
ghost use Rattle.vref.specs.Root.{root_of, tree_in};

use crate::facts::is_zero;
use ancestry::peel;
use git_object::{Kind, Object, ObjectId};
use ref_store::Lens;

/// The tree that an id stands for; none is the empty tree.
pub fn root_of(lens: &Lens, id: ObjectId) -> Option<ObjectId>
    ensures { result ≡ root_of lens.now id }
{
    if is_zero(id) {
        return None;
    }
    let id = peel(lens, id);
    match lens.get(id) {
        Some(object) => tree_in(object, id),
        None => None,
    }
}

// The tree of an object of this name.
fn tree_in(object: &Object, id: ObjectId) -> Option<ObjectId>
    ensures { result ≡ tree_in object.now.kind object.now.body id }
{
    match object.kind() {
        Kind::Commit => tree_of_commit(object),
        Kind::Tree => Some(id),
        Kind::Blob | Kind::Tag => None,
    }
}

// The tree of a commit.
fn tree_of_commit(commit: &Object) -> Option<ObjectId>
    requires { commit.now.kind ≡ Commit }
    ensures { result ≡ option_map (λ tree. tree.0) (tree_line commit.now.body) }
{
    match commit.links().next() {
        Some((id, _)) => Some(id),
        None => None,
    }
}
