// Tables that several walkers share.
ghost use Rattle.std.specs.Prelude.{◌≡◌, ◌≤◌, [], IfOk, IfSome, length};
ghost use Rattle.ancestry.specs.Tables.{AreOf, HasOne, IsOfAll, first_in};

use crate::table::Table;
use base_types::NoMemory;
use git_object::ObjectId;
use ref_store::Salt;
use std::alloc::{AllocError, Global};
use std::marker::Model;
use std::sync::Arc;

/// A table that never changes. A clone shares it.
#[derive(Drop)]
pub struct Layer<V> {
    table: Arc<Table<V>>,
}

impl<V> Model for Layer<V> {
    ghost use Rattle.std.specs.Arc.{arc_value};
    ghost use Rattle.ancestry.specs.Tables.{Entries};

    ghost Value = { Entries V };

    ghost view = { λ l. arc_value l.table };
}

impl<V: Copy> Layer<V> {
    pub fn of(alloc: Global, table: Table<V>) -> Result<Layer<V>, NoMemory>
        ensures { IfOk result (λ layer. layer ≡ table) }
    {
        Ok(Layer {
            table: Arc::new(alloc, table)?,
        })
    }

    fn table(&self) -> &Table<V>
        ensures { result.now ≡ self.now }
    {
        &self.table
    }
}

impl<V: Copy> Clone for Layer<V> {
    ghost is_clone = { λ layer copy. copy ≡ layer };

    fn clone(&self) -> Result<Layer<V>, AllocError> {
        Ok(Layer {
            table: Arc::try_clone(&self.table)?,
        })
    }
}

// A look-up goes through all tables, so no more than these are put beside one another unjoined.
const MANY: usize = 40;

/// Tables, the oldest first. Where each was joined as it came (`with`), each has at least twice as many
/// values as the next, so there are few; those that were put beside the others (`beside`) may have any
/// number. A clone shares them.
#[derive(Drop)]
pub struct Layers<V> {
    layers: Vec<Layer<V>>,
}

impl<V> Model for Layers<V> {
    ghost use Rattle.std.specs.Prelude.{List};
    ghost use Rattle.ancestry.specs.Tables.{Entries};

    ghost Value = { List (Entries V) };

    ghost view = { λ l. l.layers.items };
}

impl<V: Copy> Layers<V> {
    pub fn none(alloc: Global) -> Layers<V>
        ensures { result ≡ [] }
    {
        Layers {
            layers: Vec::new(alloc),
        }
    }

    /// The value for this name in the oldest table that has one. It costs a look-up in each table.
    pub fn get(&self, id: ObjectId) -> Option<V>
        ensures first { result ≡ first_in self.now id }
        ensures one { IfSome result (HasOne self.now id) }
    {
        for layer in &self.layers {
            if let Some(value) = layer.table().get(id) {
                return Some(value);
            }
        }
        None
    }

    /// These tables and one more, which is joined with those before it while they have fewer than twice as
    /// many values. So over time a value is joined as often as the logarithm of their number.
    pub fn with(&self, alloc: Global, layer: &Layer<V>) -> Result<Layers<V>, NoMemory>
        ensures { IfOk result (AreOf self.now layer.now) }
    {
        let len = layer.table().len();
        if len == 0 {
            return Ok(self.clone()?);
        }
        let (older, newer) = self.layers.split_at(self.staying(len));
        let mut layers = older.to_vec(alloc)?;
        let layer = joined(alloc, newer, layer)?;
        layers.push(layer)?;
        Ok(Layers { layers })
    }

    /// These tables and one more, of which none is joined unless there are many.
    pub fn beside(&self, alloc: Global, layer: &Layer<V>) -> Result<Layers<V>, NoMemory>
        ensures { IfOk result (AreOf self.now layer.now) }
    {
        if self.layers.len() >= MANY {
            return self.with(alloc, layer);
        }
        if layer.table().len() == 0 {
            return Ok(self.clone()?);
        }
        let mut layers = self.layers.to_vec(alloc)?;
        layers.push(layer.clone()?)?;
        Ok(Layers { layers })
    }

    // How many tables stay where one with so many values comes behind them.
    fn staying(&self, len: usize) -> usize
        ensures { result ≤ length self.now }
    {
        let mut at = self.layers.len();
        let mut size = len;
        while at > 0 {
            let len = self.layers[at - 1].table().len();
            if len / 2 >= size {
                return at;
            }
            at -= 1;
            size = size.saturating_add(len);
        }
        at
    }
}

impl<V: Copy> Clone for Layers<V> {
    ghost is_clone = { λ layers copy. copy ≡ layers };

    fn clone(&self) -> Result<Layers<V>, AllocError> {
        Ok(Layers {
            layers: self.layers.clone()?,
        })
    }
}

// A table with the values of several put in. Its salt is made of all their salts, so whoever chooses names
// knows it for none of them.
fn joined<V: Copy>(
    alloc: Global,
    layers: &[Layer<V>],
    last: &Layer<V>,
) -> Result<Layer<V>, NoMemory>
    ensures { IfOk result (IsOfAll layers.now last.now) }
{
    if layers.is_empty() {
        return Ok(last.clone()?);
    }
    let empty = Table::new(alloc, joined_salt(layers, last.table().salt()));
    let mut joined = empty.with_all(last.table())?;
    for layer in layers {
        joined = joined.with_all(layer.table())?;
    }
    let whole = Layer::of(alloc, joined)?;
    Ok(whole)
}

// The salt of the names in several tables and in one more.
fn joined_salt<V: Copy>(layers: &[Layer<V>], with: Salt) -> Salt {
    let mut salt = with;
    for layer in layers {
        salt = salt.joined(layer.table().salt());
    }
    salt
}
