// What is found amiss first among all that some ids lead to.
ghost use Rattle.std.specs.Prelude.{◌≡◌};
ghost use Rattle.ancestry.specs.Order.{lesser};
ghost use Rattle.ancestry.specs.Verdict.{alone, worse};
ghost use Rattle.ancestry.specs.Walk.{suits};
ghost use Rattle.std.specs.Option.{option_copied};

use git_object::{Kind, Object, ObjectId};

/// What is told of some ids: that all is whole, or else the least id that is missing, or else the least of a
/// wrong kind.
#[derive(Clone, Copy, PartialEq, Eq)]
pub enum Verdict {
    Whole,
    Missing(ObjectId),
    WrongKind(ObjectId),
}

impl Verdict {
    /// What is told of an id whose links are left aside, by the object of that name.
    pub fn alone(object: Option<&Object>, id: ObjectId, wanted: Option<Kind>) -> Verdict
        ensures { result ≡ alone (option_copied object.entry) (id, wanted) }
    {
        let Some(object) = object else {
            return Verdict::Missing(id);
        };
        if suits(wanted, object.kind()) {
            return Verdict::Whole;
        }
        Verdict::WrongKind(id)
    }

    /// What is told of these ids and the other's: one that is missing before one of a wrong kind, and the
    /// lesser of two.
    pub fn worse(self, other: Verdict) -> Verdict
        ensures { result ≡ worse self other }
    {
        match (self, other) {
            (Verdict::Missing(id), Verdict::Missing(with)) => Verdict::Missing(lesser(id, with)),
            (Verdict::WrongKind(id), Verdict::WrongKind(with)) => Verdict::WrongKind(lesser(
                id, with,
            )),
            (Verdict::Whole, _) | (Verdict::WrongKind(_), Verdict::Missing(_)) => other,
            (_, Verdict::Whole) | (Verdict::Missing(_), Verdict::WrongKind(_)) => self,
        }
    }
}

// The one that comes first.
fn lesser(id: ObjectId, with: ObjectId) -> ObjectId
    ensures { result ≡ lesser id with }
{
    if id.cmp(&with).is_lt() { id } else { with }
}

// Whether an object of this kind is what is wanted.
fn suits(wanted: Option<Kind>, kind: Kind) -> bool
    ensures { result ≡ suits wanted kind }
{
    match wanted {
        Some(wanted) => wanted == kind,
        None => true,
    }
}
