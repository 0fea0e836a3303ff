// Places in runs.
ghost use Rattle.std.specs.Prelude.{◌≡◌, ◌<◌, ◌≤◌, ◌&&◌, ◌||◌, [], IfOk, IfSome, length, nat_le, nat_lt, None, OnOk, slice_index_or, ℕ};
ghost use Rattle.ancestry.specs.declared.runs.Run.{Run};
ghost use Rattle.ancestry.specs.Runs.{HasNoneFrom, IsFirstFrom, IsFirstRun, IsPast, is_in};

use base_types::NoMemory;
use std::alloc::Global;
use std::marker::Model;

/// Places that stand one behind another, from the first up to the end, which isn't among them.
#[derive(Clone, Copy)]
pub struct Run {
    from: u32,
    to: u32,
}

/// Places in ascending runs.
#[derive(Drop)]
pub struct Runs {
    runs: Vec<Run>,
}

impl Model for Runs {
    ghost use Rattle.std.specs.Prelude.{List};
    ghost use Rattle.ancestry.specs.Runs.{AreRuns};
    ghost use Rattle.ancestry.specs.declared.runs.Run.{Run};

    ghost Value = { List Run };

    ghost view = { λ r. r.runs.items };

    ghost invariant = { λ r. AreRuns r.runs.items };
}

impl Runs {
    pub fn none(alloc: Global) -> Runs
        ensures { result ≡ [] }
    {
        Runs {
            runs: Vec::new(alloc),
        }
    }

    pub fn copy(&self) -> Result<Runs, NoMemory>
        ensures { IfOk result (λ copy. copy ≡ self.now) }
    {
        Ok(Runs {
            runs: self.runs.clone()?,
        })
    }

    /// How many runs there are.
    pub fn len(&self) -> usize {
        self.runs.len()
    }

    /// The place behind the last, and 0 where there is none.
    pub fn end(&self) -> u32 {
        match self.runs.last() {
            Some(run) => run.to,
            None => 0,
        }
    }

    /// It costs the logarithm of the number of the runs, as `next` and `past` do.
    pub fn contains(&self, place: u32) -> bool
        ensures { result ≡ is_in self.now place }
    {
        self.past(place) > place
    }

    /// The first of the places from this one on.
    pub fn next(&self, at: u32) -> Option<u32>
        ensures none { result ≡ None → HasNoneFrom (is_in self.now) at }
        ensures some { IfSome result (IsFirstFrom (is_in self.now) at) }
        ensures small { IfSome result (λ place. place < 4294967295) }
    {
        match self.first_run(at) {
            Some(run) => Some(run.from.max(at)),
            None => None,
        }
    }

    /// The end of the run that has this place; and else this place.
    pub fn past(&self, at: u32) -> u32
        ensures { IsPast (is_in self.now) at result }
    {
        let Some(run) = self.first_run(at) else {
            return at;
        };
        if run.from > at {
            return at;
        }
        run.to
    }

    // The first run that ends behind a place.
    fn first_run(&self, at: u32) -> Option<Run>
        ensures none { result ≡ None → HasNoneFrom (is_in self.now) at }
        ensures some { IfSome result (IsFirstRun self.now at) }
    {
        match self.runs.get(self.ended(at)) {
            Some(run) => Some(*run),
            None => None,
        }
    }

    // How many runs end at a place or before it.
    fn ended(&self, at: u32) -> usize
        ensures within { result ≤ length self.now }
        ensures before { (k : ℕ) (d : Run) → k < result → (slice_index_or self.now k d).to ≤ at }
        ensures behind { (k : ℕ) (d : Run) → result ≤ k → k < length self.now → at < (slice_index_or self.now k d).to }
    {
        let mut low = 0;
        let mut high = self.runs.len();
        while low < high {
            let middle = low + (high - low) / 2;
            if self.runs[middle].to <= at {
                low = middle + 1;
            } else {
                high = middle;
            }
        }
        low
    }

    /// Adds places behind all that are there, from one up to an end.
    pub fn push(&mut self, from: u32, to: u32) -> Result<(), NoMemory>
        requires full { from < to }
        requires behind { HasNoneFrom (is_in self.old) from }
        ensures { OnOk result ((place : ℕ) → is_in self.new place ≡ (is_in self.old place || (nat_le from place && nat_lt place to))) }
    {
        let Some(last) = self.runs.pop() else {
            self.runs.push(Run { from, to })?;
            return Ok(());
        };
        if last.to == from {
            let from = last.from;
            self.runs.push(Run { from, to })?;
            return Ok(());
        }
        self.runs.push(last)?;
        self.runs.push(Run { from, to })?;
        Ok(())
    }
}
