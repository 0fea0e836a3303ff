// Paths that share their fronts, in order.
ghost use Rattle.std.specs.Prelude.{◌≡◌, ◌==◌, ◌<◌, [], List, length, IfOk, slice_index_or};
ghost use Rattle.std.specs.List.{All, filter};
ghost use Rattle.vref.specs.PathTable.{AreLinked, is_listed_at, listed_paths};

use crate::path_table::{Row, path_of};
use crate::walk::Walked;
use base_types::{NoMemory, Text};
use std::alloc::Global;
use std::marker::Model;

/// Paths, in order. Each is kept as its last name and the place of its directory, so it takes the same few
/// bytes however long it is.
#[derive(Drop)]
pub struct PathList<'a> {
    rows: Vec<Row<'a>>,
    order: Vec<usize>,
}

impl<'a> Model for PathList<'a> {
    ghost use Rattle.std.specs.Prelude.{ℕ, ◌<◌, List, length, map};
    ghost use Rattle.std.specs.List.{All, filter};
    ghost use Rattle.vref.specs.PathTable.{AreLinked, path_at, paths_of};

    ghost Value = { List (List ℕ) };

    ghost view = { λ l. map (path_at (paths_of l.rows.items)) l.order.items };

    ghost invariant = { λ l. AreLinked l.rows.items × All (λ k. k < length l.rows.items) l.order.items };
}

impl<'a> PathList<'a> {
    pub(crate) fn new(alloc: Global) -> PathList<'a>
        ensures { result ≡ [] }
    {
        PathList {
            rows: Vec::new(alloc),
            order: Vec::new(alloc),
        }
    }

    // Of the paths that were found, those that are listed.
    pub(crate) fn of_walk(alloc: Global, walked: Walked<'a>) -> Result<PathList<'a>, NoMemory>
        requires linked { AreLinked walked.rows.items }
        requires within { All (λ k. k < length walked.rows.items) walked.order.items }
        ensures { IfOk result (λ paths. paths ≡ listed_paths walked.entry.rows.items walked.entry.order.items) }
    {
        let Walked { rows, order } = walked;
        let order = listed_places(alloc, &rows, &order)?;
        Ok(PathList { rows, order })
    }

    pub fn len(&self) -> usize
        ensures { result ≡ length self.now }
    {
        self.order.len()
    }

    pub fn is_empty(&self) -> bool
        ensures { result ≡ (length self.now == 0) }
    {
        self.order.is_empty()
    }

    /// Puts the path at a place together, counted from 0. It costs the length of the path.
    pub fn path(&self, alloc: Global, place: usize) -> Result<Text, NoMemory>
        requires { place < length self.now }
        ensures { IfOk result (λ path. (d : _) → path ≡ slice_index_or self.now place d) }
    {
        path_of(alloc, &self.rows, self.order[place])
    }
}

// The places of the rows that are listed.
fn listed_places(alloc: Global, rows: &[Row<'_>], order: &[usize]) -> Result<Vec<usize>, NoMemory>
    ensures { IfOk result (λ places. places.items ≡ filter (is_listed_at rows.now) order.now) }
{
    let mut places = Vec::new(alloc);
    for place in order {
        if is_listed_at(rows, *place) {
            places.push(*place)?;
        }
    }
    Ok(places)
}

fn is_listed_at(rows: &[Row<'_>], place: usize) -> bool
    ensures { result ≡ is_listed_at rows.now place }
{
    match rows.get(place) {
        Some(row) => row.listed,
        None => false,
    }
}
