// The objects of a repository in shared segments.
ghost use Rattle.std.specs.Prelude.{◌≡◌, ◌++◌, ◌∷◌, ◌+◌, ◌<◌, ◌≤◌, ◌^◌, [], drop, IfOk, IfSome, length, slice_get, Some, take};
ghost use Rattle.std.specs.Option.{option_copied, option_map};
ghost use Rattle.ref_store.specs.Objects.{first_named, place_of};
ghost use Rattle.ref_store.specs.Segments.{all_of, joined, with_fresh};

use crate::object_table::ObjectTable;
use crate::salt::Salt;
use base_types::NoMemory;
use git_object::{Object, ObjectId};
use std::alloc::{AllocError, Global};
use std::marker::Model;
use std::sync::Arc;

/// Objects that never change. A clone shares them.
#[derive(Drop)]
pub struct Segment {
    table: Arc<ObjectTable>,
}

impl Model for Segment {
    ghost use Rattle.std.specs.Prelude.{List};
    ghost use Rattle.std.specs.Arc.{arc_value};
    ghost use Rattle.git_object.specs.Content.{Content};

    ghost Value = { List Content };

    ghost view = { λ s. arc_value s.table };
}

impl Clone for Segment {
    ghost is_clone = { λ segment copy. copy ≡ segment };

    fn clone(&self) -> Result<Segment, AllocError> {
        Ok(Segment {
            table: Arc::try_clone(&self.table)?,
        })
    }
}

impl Segment {
    fn table(&self) -> &ObjectTable
        ensures { result.now ≡ self.now }
    {
        &self.table
    }
}

/// Objects in segments, the oldest first. Each segment has at least twice as many objects as the next, so
/// there are few.
#[derive(Drop)]
pub struct Segments {
    segments: Vec<Segment>,
    count: usize,
}

impl Model for Segments {
    ghost use Rattle.std.specs.Prelude.{List};
    ghost use Rattle.git_object.specs.Content.{Content};
    ghost use Rattle.ref_store.specs.Segments.{AreSegments};

    ghost Value = { List (List Content) };

    ghost view = { λ s. s.segments.items };

    ghost invariant = { λ s. AreSegments s.segments.items s.count };
}

impl Segments {
    pub fn new(alloc: Global) -> Segments
        ensures { result ≡ [] }
    {
        Segments {
            segments: Vec::new(alloc),
            count: 0,
        }
    }

    /// The same segments, which are shared.
    pub fn copy(&self) -> Result<Segments, NoMemory>
        ensures { IfOk result (λ s. s ≡ self.now) }
    {
        Ok(Segments {
            segments: self.segments.clone()?,
            count: self.count,
        })
    }

    /// A salt of the names of all these objects, made of the segments' salts: the one segment's own, where
    /// there is one.
    pub fn salt(&self) -> Salt {
        match self.segments.split_first() {
            Some((first, rest)) => joined_salt(first.table().salt(), rest),
            None => Salt::of(&[]),
        }
    }

    /// How many segments there are.
    pub fn number(&self) -> usize
        ensures number { result ≡ length self.now }
        ensures few { result ≤ 32 }
        ensures halving { 2 ^ result ≤ length (all_of self.now) + 1 }
        ensures none { result ≡ 0 → all_of self.now ≡ [] }
    {
        let _count = self.count;
        self.segments.len()
    }

    /// How many objects there are.
    pub fn len(&self) -> usize
        ensures len { result ≡ length (all_of self.now) }
        ensures few { result ≤ 4294967295 }
    {
        self.count
    }

    /// The object at a place, counted through the segments.
    pub fn get(&self, at: usize) -> Option<&Object>
        ensures { option_copied result ≡ slice_get (all_of self.now) at }
    {
        let mut left = at;
        for segment in &self.segments {
            let table = segment.table();
            if left < table.len() {
                return table.get(left);
            }
            left -= table.len();
        }
        None
    }

    /// The object of the name that stands first among the first so many, and its place.
    pub fn before(&self, id: ObjectId, among: usize) -> Option<(usize, &Object)>
        ensures place { option_map (λ p. p.0) result ≡ place_of (take among (all_of self.now)) id }
        ensures object { IfSome result (λ p. slice_get (all_of self.now) p.0 ≡ Some p.1.now) }
        ensures within { IfSome result (λ p. p.0 < length (all_of self.now)) }
    {
        let _count = self.count;
        let mut earlier = 0;
        for segment in &self.segments {
            let table = segment.table();
            if let Some((at, object)) = table.before(id, among.saturating_sub(earlier)) {
                return Some((earlier + at, object));
            }
            earlier += table.len();
        }
        None
    }

    /// The object of the name that stands first, among the first so many.
    pub fn named(&self, id: ObjectId, among: usize) -> Option<&Object>
        ensures { option_copied result ≡ first_named (take among (all_of self.now)) id }
    {
        match self.before(id, among) {
            Some((_, object)) => Some(object),
            None => None,
        }
    }

    /// The object of the name that stands first.
    pub fn first(&self, id: ObjectId) -> Option<&Object>
        ensures { option_copied result ≡ first_named (all_of self.now) id }
    {
        for segment in &self.segments {
            if let Some(object) = segment.table().first(id) {
                return Some(object);
            }
        }
        None
    }

    /// These segments and one of more objects, which is joined with those before it while they have fewer
    /// than twice as many.
    pub fn with(&self, alloc: Global, fresh: &[Object]) -> Result<Segments, NoMemory>
        requires { length (all_of self.now) + length fresh.now ≤ 4294967295 }
        ensures { IfOk result (λ s. s ≡ with_fresh self.now fresh.now) }
    {
        if fresh.is_empty() {
            return self.copy();
        }
        let (older, newer) = self.segments.split_at(self.staying(fresh));
        let mut segments = older.to_vec(alloc)?;
        segments.push(one_of(alloc, newer, fresh)?)?;
        Ok(Segments {
            segments,
            count: self.count + fresh.len(),
        })
    }

    // How many segments stay where one of these objects comes behind them. The others are joined with it.
    fn staying(&self, fresh: &[Object]) -> usize
        requires { length (all_of self.now) + length fresh.now ≤ 4294967295 }
        ensures within { result ≤ length self.now }
        ensures staying { joined self.now fresh.now ≡ take result self.now ++ (all_of (drop result self.now) ++ fresh.now) ∷ [] }
    {
        let _count = self.count;
        let mut at = self.segments.len();
        let mut size = fresh.len();
        while at > 0 {
            let len = self.segments[at - 1].table().len();
            if len / 2 >= size {
                return at;
            }
            at -= 1;
            size += len;
        }
        at
    }
}

// One segment of the objects of several, and of these behind them. It shares their bodies.
fn one_of(alloc: Global, segments: &[Segment], fresh: &[Object]) -> Result<Segment, NoMemory>
    ensures { IfOk result (λ s. s ≡ all_of segments.now ++ fresh.now) }
{
    let mut table = ObjectTable::with_capacity(
        alloc,
        joined_salt(Salt::of(fresh), segments),
        joined_len(segments, fresh),
    )?;
    for segment in segments {
        table = table.followed_by(segment.table().objects())?;
    }
    let table = table.followed_by(fresh)?;
    Ok(Segment {
        table: Arc::new(alloc, table)?,
    })
}

// This salt, joined with those of several segments.
fn joined_salt(salt: Salt, segments: &[Segment]) -> Salt {
    let mut salt = salt;
    for segment in segments {
        salt = salt.joined(segment.table().salt());
    }
    salt
}

// How many objects several segments and these have together, for the room that they take.
fn joined_len(segments: &[Segment], fresh: &[Object]) -> usize {
    let mut len = fresh.len();
    for segment in segments {
        len = len.saturating_add(segment.table().len());
    }
    len
}
