// Objects.
ghost use Rattle.std.specs.Prelude.{◌≡◌, ◌≤◌, ◌⊎◌, length, vec_len, IfErr, IfOk, None, OnOk, Some};
ghost use Rattle.git_object.specs.Object.{entries_of, fault_of, links_of, object_name, parents_of, target_in};
ghost use Rattle.git_object.specs.Content.{Content};
ghost use Rattle.git_object.specs.Kind.{kind_word};

use crate::commit::{Parents, commit_break};
use crate::fault::ObjFault;
use crate::kind::Kind;
use crate::links::Links;
use crate::object_id::ObjectId;
use crate::tag::{tag_break, target_of};
use crate::tree::{TreeEntries, tree_break};
use base_types::{ItemList, NoMemory};
use itoa::Buffer;
use sha1::Sha1;
use std::alloc::{AllocError, Global};
use std::marker::Model;
use std::sync::Arc;

/// How many bytes a body has at most.
pub const MAX_BODY: usize = 16_777_216;

/// Objects, in order. A clone of a list shares the bodies.
pub type ObjectList = ItemList<Object>;

/// An object of Git: a body that is of its kind's form, and its name. A clone shares the body.
#[derive(Drop)]
pub struct Object {
    kind: Kind,
    name: ObjectId,
    body: Arc<Vec<u8>>,
}

impl Model for Object {
    ghost use Rattle.std.specs.Arc.{arc_value};
    ghost use Rattle.git_object.specs.Content.{Content};
    ghost use Rattle.git_object.specs.Object.{IsWhole};

    ghost Value = { Content };

    ghost view = { λ o. record { kind = o.kind; body = (arc_value o.body).items } };

    ghost invariant = { λ o. IsWhole o.kind (arc_value o.body).items o.name };
}

impl Object {
    /// The object of a kind and a body, which is copied.
    pub fn parse(alloc: Global, kind: Kind, body: &[u8]) -> Result<Object, ObjFault>
        requires { length body.now ≤ MAX_BODY }
        ensures ok { IfOk result (λ o. (o.kind ≡ kind) × (o.body ≡ body.now)) }
        ensures form { OnOk result (fault_of kind body.now ≡ None) }
        ensures fault { IfErr result (λ e. (e ≡ ObjFault.NoMemory) ⊎ (fault_of kind body.now ≡ Some e)) }
    {
        Object::from_body(alloc, kind, body.to_vec(alloc)?)
    }

    /// The object of a kind and a body, which is taken over and not copied.
    pub fn from_body(alloc: Global, kind: Kind, body: Vec<u8>) -> Result<Object, ObjFault>
        requires { vec_len body ≤ MAX_BODY }
        ensures ok { IfOk result (λ o. (o.kind ≡ kind) × (o.body ≡ body.items)) }
        ensures form { OnOk result (fault_of kind body.items ≡ None) }
        ensures fault { IfErr result (λ e. (e ≡ ObjFault.NoMemory) ⊎ (fault_of kind body.items ≡ Some e)) }
    {
        check(alloc, kind, &body)?;
        let name = name_of(kind, &body);
        let body = Arc::new(alloc, body)?;
        Ok(Object { kind, name, body })
    }

    pub fn kind(&self) -> Kind
        ensures { result ≡ self.now.kind }
    {
        self.kind
    }

    pub fn body(&self) -> &[u8]
        ensures body { result.now ≡ self.now.body }
        ensures small { length result.now ≤ MAX_BODY }
        ensures form { fault_of self.now.kind result.now ≡ None }
    {
        &self.body
    }

    /// The object's name, which was computed once, when the object was made.
    pub fn name(&self) -> ObjectId
        ensures { result ≡ object_name self.now }
    {
        self.name
    }

    /// The objects that this one names, each with the kind that it wants.
    pub fn links(&self) -> Links<'_>
        ensures { result ≡ links_of self.now.kind self.now.body }
    {
        let body = self.body();
        match self.kind {
            Kind::Commit => Links::of_commit(body),
            Kind::Tree => Links::of_tree(body),
            Kind::Blob => Links::none(),
            Kind::Tag => Links::of_tag(body),
        }
    }

    /// The entries of a tree; of another object none.
    pub fn tree_entries(&self) -> TreeEntries<'_>
        ensures entries { result ≡ entries_of self.now.kind self.now.body }
        ensures few { length result ≤ MAX_BODY }
    {
        match self.kind {
            Kind::Tree => TreeEntries::of(self.body()),
            Kind::Commit | Kind::Blob | Kind::Tag => TreeEntries::none(),
        }
    }

    /// The parents of a commit; of another object none.
    pub fn parents(&self) -> Parents<'_>
        ensures parents { result ≡ parents_of self.now.kind self.now.body }
        ensures few { length result ≤ MAX_BODY }
    {
        match self.kind {
            Kind::Commit => Parents::of(self.body()),
            Kind::Tree | Kind::Blob | Kind::Tag => Parents::none(),
        }
    }

    /// What a tag names, and its kind; of another object nothing.
    pub fn tag_target(&self) -> Option<(ObjectId, Kind)>
        ensures { result ≡ target_in self.now.kind self.now.body }
    {
        match self.kind {
            Kind::Tag => target_of(self.body()),
            Kind::Commit | Kind::Tree | Kind::Blob => None,
        }
    }
}

impl Clone for Object {
    ghost is_clone = { λ object copy. copy ≡ object };

    fn clone(&self) -> Result<Object, AllocError> {
        Ok(Object {
            kind: self.kind,
            name: self.name,
            body: self.body.clone()?,
        })
    }
}

/// The same objects in a second list. Their bodies are shared and not copied.
pub fn share(list: &ObjectList) -> Result<ObjectList, NoMemory>
    ensures { IfOk result (λ shared. shared ≡ list.now) }
{
    Ok(list.clone()?)
}

// Whether a body is of its kind's form.
fn check(alloc: Global, kind: Kind, body: &[u8]) -> Result<(), ObjFault>
    requires { length body.now ≤ MAX_BODY }
    ensures form { OnOk result (fault_of kind body.now ≡ None) }
    ensures fault { IfErr result (λ e. (e ≡ ObjFault.NoMemory) ⊎ (fault_of kind body.now ≡ Some e)) }
{
    match kind {
        Kind::Commit => match commit_break(body) {
            Some(at) => Err(ObjFault::BadCommit(at)),
            None => Ok(()),
        },
        Kind::Tree => match tree_break(alloc, body)? {
            Some(at) => Err(ObjFault::BadTree(at)),
            None => Ok(()),
        },
        Kind::Blob => Ok(()),
        Kind::Tag => match tag_break(body) {
            Some(at) => Err(ObjFault::BadTag(at)),
            None => Ok(()),
        },
    }
}

// The SHA-1 of the kind's word, a space, the body's length in decimal, a zero byte, and the body.
fn name_of(kind: Kind, body: &[u8]) -> ObjectId
    ensures { result ≡ object_name (record { kind = kind; body = body.now }) }
{
    let mut hasher = Sha1::new();
    hasher.update(kind.word());
    hasher.update(b" ");
    let mut digits = Buffer::new();
    hasher.update(digits.format(body.len()).as_bytes());
    hasher.update(&[0]);
    hasher.update(body);
    ObjectId {
        bytes: hasher.finalize(),
    }
}
