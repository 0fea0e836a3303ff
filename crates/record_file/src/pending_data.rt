// What is pending of a file, as real data.
ghost use Rattle.std.specs.Prelude.{◌≡◌, ◌<◌, ◌≤◌, ◌+◌, ◌^◌, length, IfOk, OnOk, reverse};
ghost use Rattle.record_file.specs.Crashes.{MayLeave, KeepsOutside, settled, with_write, with_cut};

use std::alloc::{AllocError, Global};
use std::marker::Model;

// What was asked of a file since its last sync.
#[derive(Drop)]
pub(crate) struct PendingData {
    synced: Vec<u8>,
    low: usize,
    high: usize,
    // The oldest first.
    ranges: Vec<(usize, usize)>,
}

impl Model for PendingData {
    ghost use Rattle.std.specs.Prelude.{◌≤◌, length, reverse};
    ghost use Rattle.record_file.specs.Crashes.{Pending};

    ghost Value = { Pending };

    ghost view = { λ p. record { synced = p.synced.items; low = p.low; high = p.high; ranges = reverse p.ranges.items } };

    ghost invariant = { λ p. (p.low ≤ length p.synced.items) × (p.low ≤ p.high) };
}

impl PendingData {
    // Nothing is pending.
    pub fn settle(alloc: Global, content: &[u8]) -> Result<PendingData, AllocError>
        ensures { IfOk result (λ pending. pending ≡ settled content.now) }
    {
        Ok(PendingData {
            synced: content.to_vec(alloc)?,
            low: content.len(),
            high: content.len(),
            ranges: Vec::new(alloc),
        })
    }

    // A write is asked for.
    pub fn ask_write(&mut self, at: usize, count: usize) -> Result<(), AllocError>
        requires { at + count < 2 ^ 64 }
        ensures { OnOk result (self.new ≡ with_write self.old at count) }
    {
        self.ranges.push((at, count))?;
        self.high = self.high.max(at + count);
        Ok(())
    }

    // A cut is asked for.
    pub fn ask_cut(&mut self, len: usize)
        ensures { self.new ≡ with_cut self.old len }
    {
        self.low = self.low.min(len);
    }

    // A file that a crash may leave: as long as can be, with the filler in each byte that isn't fixed.
    pub fn image(&self, alloc: Global, filler: u8) -> Result<Vec<u8>, AllocError>
        ensures { IfOk result (λ image. MayLeave self.now image.items) }
    {
        image_of(
            alloc,
            &self.synced,
            self.low,
            self.high,
            &self.ranges,
            filler,
        )
    }
}

fn image_of(
    alloc: Global,
    synced: &[u8],
    low: usize,
    high: usize,
    ranges: &[(usize, usize)],
    filler: u8,
) -> Result<Vec<u8>, AllocError>
    requires in_synced { low ≤ length synced.now }
    requires in_order { low ≤ high }
    ensures { IfOk result (λ image. MayLeave (record { synced = synced.now; low = low; high = high; ranges = reverse ranges.now }) image.items) }
{
    let mut image = synced.split_at(low).0.to_vec(alloc)?;
    image.resize(high, filler)?;
    for (at, count) in ranges {
        fill(&mut image, *at, *count, filler);
    }
    Ok(image)
}

// Puts the filler into a range, as far as the image goes.
fn fill(image: &mut Vec<u8>, at: usize, count: usize, filler: u8)
    ensures long { length image.new.items ≡ length image.old.items }
    ensures others { KeepsOutside at count image.old.items image.new.items }
{
    let len = image.len();
    if at >= len {
        return;
    }
    let end = at + count.min(len - at);
    for place in at..end {
        image[place] = filler;
    }
}
