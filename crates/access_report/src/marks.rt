// Which rules are marked, by their numbers.
ghost use Rattle.std.specs.Prelude.{◌≡◌, ℕ, false, length, IfOk};
ghost use Rattle.access_check.specs.declared.verdicts.Verdict.TheVariants.{Allowed};
ghost use Rattle.access_report.specs.Marks.{MarksRule, mark_of};

use access_check::Verdict;
use base_types::NoMemory;
use std::alloc::Global;

/// A mark for each rule.
#[derive(Drop)]
pub(crate) struct Marks {
    marks: Vec<bool>,
}

impl Marks {
    /// No rule of so many is marked. It costs a byte for each.
    pub(crate) fn none(alloc: Global, rules: usize) -> Result<Marks, NoMemory>
        ensures length { IfOk result (λ m. length m.marks.items ≡ rules) }
        ensures none { IfOk result (λ m. (seq : ℕ) → mark_of m.marks.items seq ≡ false) }
    {
        Ok(Marks {
            marks: vec![in alloc; false; rules]?,
        })
    }

    /// Marks the rule that a verdict names.
    pub(crate) fn mark(&mut self, verdict: Verdict)
        ensures length { length self.new.marks.items ≡ length self.old.marks.items }
        ensures marks { MarksRule self.old.marks.items self.new.marks.items verdict }
    {
        match verdict {
            Verdict::Allowed(seq) | Verdict::DeniedBy(seq) => self.mark_rule(seq),
            Verdict::Fallthru => {}
        }
    }

    fn mark_rule(&mut self, seq: u32)
        ensures length { length self.new.marks.items ≡ length self.old.marks.items }
        ensures marks { MarksRule self.old.marks.items self.new.marks.items (Allowed seq) }
    {
        if seq == 0 {
            return;
        }
        if let Some(mark) = self.marks.get_mut(seq as usize - 1) {
            *mark = true;
        }
    }

    pub(crate) fn has(&self, seq: u32) -> bool
        ensures { result ≡ mark_of self.now.marks.items seq }
    {
        if seq == 0 {
            return false;
        }
        match self.marks.get(seq as usize - 1) {
            Some(mark) => *mark,
            None => false,
        }
    }
}
