// The forms as they are read and the forms as they are written out are one. Each function's contract is a
// law; its body is empty.
ghost use Rattle.std.specs.Prelude.{◌≡◌, ◌∷◌, ℕ, List, None, Some};
ghost use Rattle.git_object.specs.Object.{commit_links, entries_of, fault_of, links_of, parents_of, target_in};
ghost use Rattle.git_object.specs.Tree.{Entry};
ghost use Rattle.git_object.specs.Spelling.{BreaksCommit, BreaksTag, BreaksTree, IsCommit, IsId, IsTree, spelled_tag};
ghost use Rattle.git_object.specs.declared.object_id.ObjectId.{ObjectId};
ghost use Rattle.git_object.specs.declared.kind.Kind.{Kind};
ghost use Rattle.git_object.specs.declared.kind.Kind.TheVariants.{Commit, Tree, Tag};

use crate::fault::ObjFault;

/// A body without a fault is a commit of its parents, what is written as a commit of a tree and of parents
/// has no fault, has those parents and links to those objects, and a fault is told where the first line that
/// breaks the form begins.
pub fn commits_are_as_written()
    ensures read { (body : List ℕ) → fault_of Commit body ≡ None →
        (tree : ObjectId) × (rest : List ℕ) × IsCommit body tree (parents_of Commit body) rest }
    ensures written { (body : List ℕ) (tree : ObjectId) (parents : List ObjectId) (rest : List ℕ) → IsCommit body tree parents rest →
        (fault_of Commit body ≡ None) × (parents_of Commit body ≡ parents) × (links_of Commit body ≡ (tree, Tree) ∷ commit_links parents) }
    ensures broken { (body : List ℕ) (at : ℕ) → fault_of Commit body ≡ Some (ObjFault.BadCommit at) → BreaksCommit body at }
{}

/// A body without a fault is a tree of its entries, what is written as a tree of entries has no fault and
/// those entries, and a fault is told where the first entry that breaks the form begins.
pub fn trees_are_as_written()
    ensures read { (body : List ℕ) → fault_of Tree body ≡ None → IsTree body (entries_of Tree body) }
    ensures written { (body : List ℕ) (entries : List Entry) → IsTree body entries →
        (fault_of Tree body ≡ None) × (entries_of Tree body ≡ entries) }
    ensures broken { (body : List ℕ) (at : ℕ) → fault_of Tree body ≡ Some (ObjFault.BadTree at) → BreaksTree body at }
{}

/// A body without a fault is a tag of some object, what is written as a tag of an object has no fault and
/// names that object, and a fault is told where the first line that breaks the form begins.
pub fn tags_are_as_written()
    ensures read { (body : List ℕ) → fault_of Tag body ≡ None →
        (id : ObjectId) × (kind : Kind) × (rest : List ℕ) × (body ≡ spelled_tag id kind rest) × IsId id }
    ensures written { (id : ObjectId) (kind : Kind) (rest : List ℕ) → IsId id →
        (fault_of Tag (spelled_tag id kind rest) ≡ None) × (target_in Tag (spelled_tag id kind rest) ≡ Some (id, kind)) }
    ensures broken { (body : List ℕ) (at : ℕ) → fault_of Tag body ≡ Some (ObjFault.BadTag at) → BreaksTag body at }
{}
