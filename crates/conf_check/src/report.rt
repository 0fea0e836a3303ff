// What is printed of a conf.
ghost use Rattle.std.specs.Prelude.{◌≡◌, IfOk, false, true};
ghost use Rattle.conf_check.specs.Lines.{flat_text};
ghost use Rattle.conf_check.specs.Report.{IsPrinted, OneText, fault_text, is_out_of_memory, only_file};

use crate::lines::flat_text;
use base_types::{NoMemory, Text};
use conf_groups::{ConfFault, ConfFile, ConfKind, FileList};
use rule_compile::{Policy, PolicyFault};
use std::alloc::Global;

/// What is printed of a conf, and whether it has rules. Else it has a fault.
#[derive(Drop)]
pub struct Report {
    pub has_rules: bool,
    pub text: Vec<u8>,
}

// Out of memory is no fault of a conf.
fn is_out_of_memory(fault: &PolicyFault) -> bool
    ensures { result ≡ is_out_of_memory fault.now }
{
    match fault {
        PolicyFault::Splicing(ConfFault { kind, .. }) => matches!(kind, ConfKind::NoMemory),
        PolicyFault::Rules(_) => false,
    }
}

// The conf whose only file has these bytes.
fn only_file(alloc: Global, input: Vec<u8>) -> Result<FileList, NoMemory>
    ensures { IfOk result (λ files. files ≡ only_file input.items) }
{
    let mut files = FileList::new(alloc);
    files.push(ConfFile {
        name: Text::of(alloc, b"gitolite.conf")?,
        text: Text::from(input),
    })?;
    Ok(files)
}

// What is printed of a conf that has rules.
fn rules_report(alloc: Global, policy: &Policy) -> Result<Report, NoMemory>
    ensures { IfOk result (λ report. (report.has_rules ≡ true) × (report.text.items ≡ flat_text policy.now)) }
{
    Ok(Report {
        has_rules: true,
        text: flat_text(alloc, policy)?,
    })
}

// What is printed of a conf that has a fault.
fn fault_report(alloc: Global, fault: &PolicyFault) -> Result<Report, NoMemory>
    ensures { IfOk result (λ report. (is_out_of_memory fault.now ≡ false) × (report.has_rules ≡ false) × (report.text.items ≡ fault_text fault.now)) }
{
    if is_out_of_memory(fault) {
        return Err(NoMemory);
    }
    let mut text = fault.text(alloc)?.into_bytes();
    text.push(b'\n')?;
    Ok(Report {
        has_rules: false,
        text,
    })
}

/// Compiles the conf whose only file has these bytes, and says what is printed of it.
pub fn check_conf(alloc: Global, input: Vec<u8>) -> Result<Report, NoMemory>
    ensures { IfOk result (λ report. IsPrinted input.items report.has_rules report.text.items) }
{
    let files = only_file(alloc, input)?;
    match Policy::compile(alloc, &files) {
        Ok(policy) => rules_report(alloc, &policy),
        Err(fault) => fault_report(alloc, &fault),
    }
}

/// Of one input one text is printed at most.
pub fn conf_texts_agree()
    ensures { OneText }
{
    // called for its clause, which the proof cites
    rule_compile::some_patterns_are_true();
}
