//! Confs, and what is printed of them, worked out by hand.

use base_types::Text;
use conf_check::{check_conf, flat_text};
use conf_groups::{ConfFile, FileList};
use rule_compile::Policy;
use std::alloc::Global;

// A conf, whether it has rules, and what is printed of it.
static ROWS: [(&str, bool, &str); 9] = [
    ("", true, "ok 0 rules, 0 repositories\n"),
    (
        "repo gitolite-admin\n    RW+     =   admin\n\nrepo testing\n    RW+     =   @all\n",
        true,
        "1 gitolite-admin RW+ refs/.* admin gitolite.conf 2\n2 testing RW+ refs/.* @all gitolite.conf 5\nok 2 rules, 2 repositories\n",
    ),
    // a name in two blocks is one repository, and a pattern is none
    (
        "repo b a b\nrepo c a x/..*\nR = u",
        true,
        "1 c R refs/.* u gitolite.conf 3\n2 a R refs/.* u gitolite.conf 3\n3 x/..* R refs/.* u gitolite.conf 3\nok 3 rules, 3 repositories\n",
    ),
    // each kind of word
    (
        "@s = ann bob\nrepo a\nRW+CDM x|y NAME/z = @s u\nrepo @all\nR = CREATOR READERS WRITERS @all\nrepo u/CREATOR/..*\nC = @s",
        true,
        "1 a RW+CDM refs/heads/x|y @s gitolite.conf 3\n2 a RW+CDM refs/heads/x|y u gitolite.conf 3\n3 a RW+CDM VREF/NAME/z @s gitolite.conf 3\n4 a RW+CDM VREF/NAME/z u gitolite.conf 3\n5 @all R refs/.* CREATOR gitolite.conf 5\n6 @all R refs/.* READERS gitolite.conf 5\n7 @all R refs/.* WRITERS gitolite.conf 5\n8 @all R refs/.* @all gitolite.conf 5\n9 u/CREATOR/..* C refs/.* @s gitolite.conf 7\nok 9 rules, 1 repositories\n",
    ),
    (
        "RW = ann",
        false,
        "gitolite.conf line 1: rule before repo\n",
    ),
    (
        "repo a\nR = @g\n",
        false,
        "gitolite.conf line 2: unknown group @g\n",
    ),
    (
        "repo gitolite-admin\n    RW+     =   a\n\nrepo web\n    RW  v[0-9 = carol\n",
        false,
        "gitolite.conf line 5: bad pattern refs/heads/v[0-9 at 12\n",
    ),
    (
        "repo a\nhello\n",
        false,
        "gitolite.conf line 2: not a statement\n",
    ),
    (
        "include b.conf\n",
        false,
        "gitolite.conf line 1: no file b.conf\n",
    ),
];

// Whether a conf comes to rules or to a fault, as is due, and this is printed of it.
fn is_checked(alloc: Global, conf: &[u8], has_rules: bool, due: &[u8]) -> bool {
    let Ok(conf) = conf.to_vec(alloc) else {
        return false;
    };
    match check_conf(alloc, conf) {
        Ok(report) => report.has_rules == has_rules && report.text.as_slice() == due,
        Err(_) => false,
    }
}

#[test]
fn confs_are_checked(rt: HostRuntime) {
    for (conf, has_rules, due) in &ROWS {
        assert!(rt;
            is_checked(rt.alloc(), conf.as_bytes(), *has_rules, due.as_bytes()),
            "{conf}"
        );
    }
}

// The conf that is shipped as `gitolite_shell/data/gitolite.conf`, and what is printed of it.
static SHIPPED: (&str, &str) = (
    "@staff     = ann bob\n@interns   = cal\n@web       = site blog shop\n@infra     = dns mail backup\n\nrepo gitolite-admin\n    RW+     = ann\nrepo @web\n    -   master$ refs/tags/  = @interns\n    RW+ personal/USER/      = @staff @interns\n    -   personal/           = @all\n    RW                      = @staff @interns\n    desc = \"public web\"\nrepo @infra\n    RW+                     = ann\n    R                       = @staff\n    config hooks.mailinglist = infra@example.com\nrepo wiki notes\n    RW                      = @all\nrepo secrets\n    option deny-rules = 1\n    -                       = bob\n    RW+                     = @staff\nrepo docs drafts\n    RWC                     = @staff\n    R                       = @interns     # read only\n",
    "1 gitolite-admin RW+ refs/.* ann gitolite.conf 7\n2 site - refs/heads/master$ @interns gitolite.conf 9\n3 site - refs/tags/ @interns gitolite.conf 9\n4 blog - refs/heads/master$ @interns gitolite.conf 9\n5 blog - refs/tags/ @interns gitolite.conf 9\n6 shop - refs/heads/master$ @interns gitolite.conf 9\n7 shop - refs/tags/ @interns gitolite.conf 9\n8 site RW+ refs/heads/personal/USER/ @staff gitolite.conf 10\n9 site RW+ refs/heads/personal/USER/ @interns gitolite.conf 10\n10 blog RW+ refs/heads/personal/USER/ @staff gitolite.conf 10\n11 blog RW+ refs/heads/personal/USER/ @interns gitolite.conf 10\n12 shop RW+ refs/heads/personal/USER/ @staff gitolite.conf 10\n13 shop RW+ refs/heads/personal/USER/ @interns gitolite.conf 10\n14 site - refs/heads/personal/ @all gitolite.conf 11\n15 blog - refs/heads/personal/ @all gitolite.conf 11\n16 shop - refs/heads/personal/ @all gitolite.conf 11\n17 site RW refs/.* @staff gitolite.conf 12\n18 site RW refs/.* @interns gitolite.conf 12\n19 blog RW refs/.* @staff gitolite.conf 12\n20 blog RW refs/.* @interns gitolite.conf 12\n21 shop RW refs/.* @staff gitolite.conf 12\n22 shop RW refs/.* @interns gitolite.conf 12\n23 dns RW+ refs/.* ann gitolite.conf 15\n24 mail RW+ refs/.* ann gitolite.conf 15\n25 backup RW+ refs/.* ann gitolite.conf 15\n26 dns R refs/.* @staff gitolite.conf 16\n27 mail R refs/.* @staff gitolite.conf 16\n28 backup R refs/.* @staff gitolite.conf 16\n29 wiki RW refs/.* @all gitolite.conf 19\n30 notes RW refs/.* @all gitolite.conf 19\n31 secrets - refs/.* bob gitolite.conf 22\n32 secrets RW+ refs/.* @staff gitolite.conf 23\n33 docs RWC refs/.* @staff gitolite.conf 25\n34 drafts RWC refs/.* @staff gitolite.conf 25\n35 docs R refs/.* @interns gitolite.conf 26\n36 drafts R refs/.* @interns gitolite.conf 26\nok 36 rules, 12 repositories\n",
);

#[test]
fn the_shipped_conf_is_checked(rt: HostRuntime) {
    assert!(rt; is_checked(rt.alloc(), SHIPPED.0.as_bytes(), true, SHIPPED.1.as_bytes()));
}

// One file has no subconf, so a warning is printed of two.
static FILES: [(&str, &str); 2] = [
    ("gitolite.conf", "repo a\nR = u\nsubconf web.conf\n"),
    ("web.conf", "repo core web\nR = u\n"),
];

static PRINTED: &str =
    "1 a R refs/.* u gitolite.conf 2\n2 web R refs/.* u web.conf 2\nweb.conf line 1: subconf web may not set access for core\nok 2 rules, 2 repositories\n";

fn conf_file(alloc: Global, name: &str, text: &str) -> Option<ConfFile> {
    let name = Text::of(alloc, name.as_bytes()).ok()?;
    let text = Text::of(alloc, text.as_bytes()).ok()?;
    Some(ConfFile { name, text })
}

fn push_file(files: &mut FileList, alloc: Global, name: &str, text: &str) -> bool {
    match conf_file(alloc, name, text) {
        Some(file) => files.push(file).is_ok(),
        None => false,
    }
}

fn is_policy_printed(alloc: Global, policy: &Policy, due: &[u8]) -> bool {
    match flat_text(alloc, policy) {
        Ok(text) => text.as_slice() == due,
        Err(_) => false,
    }
}

fn is_printed(alloc: Global, files: &FileList, due: &[u8]) -> bool {
    match Policy::compile(alloc, files) {
        Ok(policy) => is_policy_printed(alloc, &policy, due),
        Err(_) => false,
    }
}

#[test]
fn a_warning_is_printed_behind_the_rules(rt: HostRuntime) {
    let mut files = FileList::new(rt.alloc());
    for (name, text) in &FILES {
        assert!(rt; push_file(&mut files, rt.alloc(), name, text));
    }
    assert!(rt; is_printed(rt.alloc(), &files, PRINTED.as_bytes()));
}
