// Numbers that are drawn, the same in each run.
ghost use Rattle.std.specs.Prelude.{◌≡◌};
ghost use Rattle.installation.specs.Draws.{drawn, drawn_behind};

/// A generator of numbers below 65,537. Contracts see it as the number that it has led to.
#[derive(Drop)]
pub struct Draws {
    pub last: u32,
}

impl Draws {
    #[tactic(auto, unfolding(crate::specs::Draws::drawn))]
    pub(crate) fn new(start: u32) -> Draws
        ensures { result.last ≡ drawn start 0 }
    {
        Draws {
            last: start % 65_537,
        }
    }

    pub(crate) fn next(&mut self) -> u32
        ensures drawn { result ≡ drawn_behind self.old.last }
        ensures last { self.new.last ≡ drawn_behind self.old.last }
    {
        self.last = ((75 * u64::from(self.last) + 74) % 65_537) as u32;
        self.last
    }
}
