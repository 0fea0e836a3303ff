// Splicing.
ghost use Rattle.std.specs.Prelude.{◌≡◌, ◌++◌, ◌∷◌, [], false, length, map, true, IfOk, OnOk, IfErr, IfNone, vec_len, None, Ok};
ghost use Rattle.std.specs.List.{flat_map};
ghost use Rattle.std.specs.FinMap as named;
ghost use Rattle.conf_groups.specs.Splicing.{Gives, GivesFault, HasPlace, before_all, brought, front, is_too_large, main_name, refusal, section, spliced, spliced_files, spliced_from, start, whole, with_line};
ghost use Rattle.conf_groups.specs.Indexes.{HaveTheirNames, bytes_of, files_at};
ghost use Rattle.conf_groups.specs.Stacks.{Admits, Ends, KindHasPlace, Makes, Steps, front_after, front_found, front_of_piece, front_of_rest, front_of_whole, line_of, piece_of, scope_at, state_of, to_come};
ghost use Rattle.conf_groups.specs.declared.limits.TheConstants.{MAX_LINES};
ghost use Rattle.conf_groups.specs.declared.fault.ConfKind.TheVariants as kind;

use crate::files::{
    Files, copy_index, find_file, index_files, is_nowhere, is_too_large, scope_name,
};
use crate::lines::cut_line;
use crate::placed::{Placed, PlacedLine, PlacedList, ScopeAt};
use crate::stack::{Coming, LineAt, Rest, Splicer};
use crate::{ConfFault, ConfFile, ConfKind, FileList, FileName, MAX_LINES, MAX_SPLICED_BYTES};
use base_types::{NameMap, NoMemory, Text};
use conf_lex::{LexFault, Statement, read_line};
use std::alloc::Global;

/// The statements of a conf at their places, or its first fault.
///
/// It costs what is spliced, and for a line that names files with `*` the comparison of that pattern with the
/// name of each file that isn't spliced yet: mostly a few bytes, at most the product of their lengths.
pub fn expand(alloc: Global, files: &FileList) -> Result<PlacedList, ConfFault>
    ensures { Gives result (spliced files.now) }
{
    let Ok(index) = index_files(alloc, files.as_slice()) else {
        return Err(no_memory(alloc));
    };
    splice_index(alloc, &index)
}

/// Splices, unless the whole conf is refused.
fn splice_index(alloc: Global, index: &NameMap<&ConfFile>) -> Result<PlacedList, ConfFault>
    requires { HaveTheirNames index.now }
    ensures { Gives result (spliced_files (files_at index.now)) }
{
    if is_too_large(index) {
        return Err(fault_before_all(alloc, ConfKind::TooLong));
    }
    let Ok(name) = Text::of(alloc, b"gitolite.conf") else {
        return Err(no_memory(alloc));
    };
    let Some(main) = find_file(index, &name) else {
        return Err(fault_before_all(alloc, ConfKind::NoFile(name)));
    };
    splice_lines(alloc, index, main)
}

/// Splices line by line, from the main file on.
#[tactic(auto, using(crate::proofs::RunLemmas::runs_to, crate::proofs::RunLemmas::ends_by))]
fn splice_lines<'a>(
    alloc: Global,
    index: &NameMap<&'a ConfFile>,
    main: &'a ConfFile,
) -> Result<PlacedList, ConfFault>
    requires main_file { main.now.name ≡ main_name }
    requires names { HaveTheirNames index.now }
    requires small { is_too_large (files_at index.now) ≡ false }
    ensures { Gives result (spliced_from (files_at index.now) MAX_LINES (front (start (files_at index.now)))) }
{
    let Ok(unspliced) = copy_index(index) else {
        return Err(no_memory(alloc));
    };
    let Ok(mut splicer) = start_splicer(alloc, Files::new(unspliced), &main.name) else {
        return Err(no_memory(alloc));
    };
    match splicer.run(alloc, index) {
        Ok(()) => {
            let Splicer { placed, .. } = splicer;
            Ok(placed)
        }
        Err(fault) => Err(fault),
    }
}

/// The start: the main file is to come.
fn start_splicer<'a>(
    alloc: Global,
    unspliced: Files<'a>,
    main: &'a FileName,
) -> Result<Splicer<'a>, NoMemory>
    requires { main.now ≡ main_name }
    ensures { IfOk result (λ s. state_of s ≡ start unspliced.entry) }
{
    Ok(Splicer {
        placed: PlacedList::new(alloc),
        unspliced,
        bytes: MAX_SPLICED_BYTES,
        stack: vec![in alloc; Coming::Whole(ScopeAt::Main, main)]?,
    })
}

#[tactic(auto, using(crate::proofs::StackLemmas::to_come_push))]
impl<'a> Splicer<'a> {
    /// Splices line by line, as long as there is room for one more.
    fn run(&mut self, alloc: Global, files: &NameMap<&'a ConfFile>) -> Result<(), ConfFault>
        ensures ok { OnOk result (spliced_from (files_at files.now) MAX_LINES (front (state_of self.old)) ≡ Ok self.new.placed) }
        ensures err { IfErr result (λ e. GivesFault e.kind e (spliced_from (files_at files.now) MAX_LINES (front (state_of self.old)))) }
    {
        let mut room = MAX_LINES;
        while room > 0 {
            match self.step(alloc, files) {
                Ok(true) => room -= 1,
                Ok(false) => return Ok(()),
                Err(fault) => return Err(fault),
            }
        }
        match self.refuse_next(alloc, files) {
            Ok(()) => Ok(()),
            Err(fault) => Err(fault),
        }
    }

    /// Places the next line, or answers that all is placed.

    fn step(&mut self, alloc: Global, files: &NameMap<&'a ConfFile>) -> Result<bool, ConfFault>
        ensures { Steps (files_at files.now) (state_of self.old) (state_of self.new) result }
    {
        let line = match self.next_line() {
            Ok(Some(line)) => line,
            Ok(None) => return Ok(false),
            Err(_) => return Err(no_memory(alloc)),
        };
        let statement = match admit(alloc, files, line.over, line) {
            Ok(statement) => statement,
            Err(fault) => return Err(fault),
        };
        match self.place(alloc, line, statement) {
            Ok(()) => Ok(true),
            Err(_) => Err(no_memory(alloc)),
        }
    }

    /// Refuses the next line, where there is one.
    #[tactic(auto, using(crate::proofs::RunLemmas::last_too_many))]
    fn refuse_next(&mut self, alloc: Global, files: &NameMap<&'a ConfFile>) -> Result<(), ConfFault>
        ensures { Ends (files_at files.now) (state_of self.old) (state_of self.new) result }
    {
        let line = match self.next_line() {
            Ok(Some(line)) => line,
            Ok(None) => return Ok(()),
            Err(_) => return Err(no_memory(alloc)),
        };
        match admit(alloc, files, true, line) {
            Ok(_) => Err(make_fault(alloc, line.file, line.number, ConfKind::TooLong)),
            Err(fault) => Err(fault),
        }
    }

    /// The next line, or nothing where all is placed.
    fn next_line(&mut self) -> Result<Option<LineAt<'a>>, NoMemory>
        ensures { IfOk result (λ line. front (state_of self.old) ≡ front_found self.new line) }
    {
        while let Some(piece) = self.stack.pop() {
            let line = self.take_piece(piece)?;
            if line.is_some() {
                return Ok(line);
            }
        }
        Ok(None)
    }

    /// What a piece brings: the next line, where it has one.
    fn take_piece(&mut self, piece: Coming<'a>) -> Result<Option<LineAt<'a>>, NoMemory>
        ensures front { IfOk result (λ line. front_of_piece self.old piece.entry ≡ front_after self.new line) }
        ensures kept { IfOk result (λ line. IfNone line (vec_len self.new.stack ≡ vec_len self.old.stack)) }
    {
        match piece {
            Coming::Boundary => {
                self.placed.push(Placed::EndOfBlock)?;
                Ok(None)
            }
            Coming::Whole(scope, file) => self.open_file(scope, file),
            Coming::Rest(rest) => self.take_line(rest, false),
        }
    }

    /// The first line of a file, where it has one and wasn't spliced before.
    fn open_file(
        &mut self,
        scope: ScopeAt<'a>,
        file: &'a FileName,
    ) -> Result<Option<LineAt<'a>>, NoMemory>
        ensures front { IfOk result (λ line. front_of_whole self.old scope.entry file.now ≡ front_after self.new line) }
        ensures kept { IfOk result (λ line. IfNone line (vec_len self.new.stack ≡ vec_len self.old.stack)) }
    {
        let Some(found) = self.unspliced.take_out(file) else {
            return Ok(None);
        };
        let bytes = found.text.bytes();
        let over = self.bytes < bytes.len();
        self.bytes = self.bytes.saturating_sub(bytes.len());
        let rest = Rest {
            scope,
            file,
            line: 1,
            bytes,
        };
        self.take_line(rest, over)
    }

    /// The first line of what is left of a file, where it has one.
    fn take_line(&mut self, rest: Rest<'a>, over: bool) -> Result<Option<LineAt<'a>>, NoMemory>
        ensures front { IfOk result (λ line. front_of_rest self.old over rest.entry ≡ front_after self.new line) }
        ensures kept { IfOk result (λ line. IfNone line (vec_len self.new.stack ≡ vec_len self.old.stack)) }
    {
        let Some((text, tail)) = cut_line(rest.bytes) else {
            return Ok(None);
        };
        self.stack.push(Coming::Rest(Rest {
            scope: rest.scope,
            file: rest.file,
            line: rest.line + 1,
            bytes: tail,
        }))?;
        Ok(Some(LineAt {
            scope: rest.scope,
            file: rest.file,
            number: rest.line,
            over,
            text,
        }))
    }

    /// Places a line, and puts what its statement brings before all that is to come.
    fn place(
        &mut self,
        alloc: Global,
        line: LineAt<'a>,
        statement: Statement,
    ) -> Result<(), NoMemory>
        ensures { OnOk result (state_of self.new ≡ with_line (state_of self.old) (line_of line.entry) statement) }
    {
        push_brought(
            alloc,
            &mut self.stack,
            &self.unspliced,
            line.scope,
            &statement,
        )?;
        let placed = PlacedLine {
            scope: line.scope.to_scope(alloc)?,
            file: line.file.clone()?,
            line: line.number,
            statement,
        };
        self.placed.push(Placed::Line(placed))?;
        Ok(())
    }
}

/// Puts a piece on top, so that it comes first.
#[tactic(auto, using(crate::proofs::StackLemmas::to_come_push))]
fn push_piece<'a>(stack: &mut Vec<Coming<'a>>, piece: Coming<'a>) -> Result<(), NoMemory>
    ensures { OnOk result (to_come stack.new.items ≡ piece_of piece.entry ∷ to_come stack.old.items) }
{
    stack.push(piece)?;
    Ok(())
}

/// Puts files on the stack, the first of them last.
fn push_files<'a>(
    stack: &mut Vec<Coming<'a>>,
    names: &[&'a FileName],
    scope: ScopeAt<'a>,
) -> Result<(), NoMemory>
    ensures { OnOk result (to_come stack.new.items ≡ map (whole (scope_at scope.entry)) (bytes_of names.now) ++ to_come stack.old.items) }
{
    let mut at = names.len();
    while at > 0 {
        at -= 1;
        push_piece(stack, Coming::Whole(scope, names[at]))?;
    }
    Ok(())
}

/// The same, each with a scope of its own and the end of a block after it.
fn push_sections<'a>(stack: &mut Vec<Coming<'a>>, names: &[&'a FileName]) -> Result<(), NoMemory>
    ensures { OnOk result (to_come stack.new.items ≡ flat_map section (bytes_of names.now) ++ to_come stack.old.items) }
{
    let mut at = names.len();
    while at > 0 {
        at -= 1;
        let name = names[at];
        push_piece(stack, Coming::Boundary)?;
        push_piece(
            stack,
            Coming::Whole(ScopeAt::Sub(scope_name(name.bytes())), name),
        )?;
    }
    Ok(())
}

/// Puts what a statement brings on the stack.
fn push_brought<'a>(
    alloc: Global,
    stack: &mut Vec<Coming<'a>>,
    unspliced: &Files<'a>,
    scope: ScopeAt<'a>,
    statement: &Statement,
) -> Result<(), NoMemory>
    ensures { OnOk result (to_come stack.new.items ≡ brought unspliced.now (scope_at scope.entry) statement.now ++ to_come stack.old.items) }
{
    match statement {
        Statement::Include { pattern } => {
            let names = unspliced.named_by(alloc, pattern)?;
            push_files(stack, names.as_slice(), scope)
        }
        Statement::Subconf { pattern } => {
            let names = unspliced.named_by(alloc, pattern)?;
            push_sections(stack, names.as_slice())?;
            push_piece(stack, Coming::Boundary)
        }
        _ => Ok(()),
    }
}

/// The statement of a line, unless it is refused.
fn admit(
    alloc: Global,
    files: &NameMap<&ConfFile>,
    full: bool,
    line: LineAt<'_>,
) -> Result<Statement, ConfFault>
    ensures { Admits (files_at files.now) full (line_of line.entry) result }
{
    let statement = match read_line(alloc, line.text) {
        Ok(statement) => statement,
        Err(LexFault::NoMemory) => return Err(no_memory(alloc)),
        Err(fault) => return Err(make_fault(alloc, line.file, line.number, ConfKind::Lex(fault))),
    };
    match refusal_of(files, full, line.scope, &statement) {
        Ok(None) => Ok(statement),
        Ok(Some(kind)) => Err(make_fault(alloc, line.file, line.number, kind)),
        Err(_) => Err(no_memory(alloc)),
    }
}

/// What refuses a statement, if anything does.
fn refusal_of(
    files: &NameMap<&ConfFile>,
    full: bool,
    scope: ScopeAt<'_>,
    statement: &Statement,
) -> Result<Option<ConfKind>, NoMemory>
    ensures place { IfOk result (λ kind. KindHasPlace kind) }
    ensures kind { IfOk result (λ kind. kind ≡ refusal (files_at files.now) full (scope_at scope.entry) (Ok statement.now)) }
{
    if let Statement::Include { pattern } | Statement::Subconf { pattern } = statement {
        if is_nowhere(files, pattern) {
            return Ok(Some(ConfKind::NoFile(pattern.clone()?)));
        }
    }
    if full {
        return Ok(Some(ConfKind::TooLong));
    }
    match (statement, scope) {
        (Statement::Subconf { .. }, ScopeAt::Sub(_)) => Ok(Some(ConfKind::SubconfInSubconf)),
        _ => Ok(None),
    }
}

/// A fault at a line; out of memory where its text can't be had.
fn make_fault(alloc: Global, file: &FileName, line: u32, kind: ConfKind) -> ConfFault
    requires { HasPlace kind }
    ensures { Makes result kind file.now line }
{
    match file.clone() {
        Ok(file) => ConfFault { kind, file, line },
        Err(_) => no_memory(alloc),
    }
}

/// A fault before all lines.
fn fault_before_all(alloc: Global, kind: ConfKind) -> ConfFault
    requires { HasPlace kind }
    ensures { GivesFault result.kind result (before_all kind) }
{
    match Text::of(alloc, b"gitolite.conf") {
        Ok(file) => ConfFault {
            kind,
            file,
            line: 0,
        },
        Err(_) => no_memory(alloc),
    }
}

fn no_memory(alloc: Global) -> ConfFault
    ensures kind { result.kind ≡ kind.NoMemory }
    ensures place { (result.file ≡ []) × (result.line ≡ 0) }
{
    ConfFault {
        kind: ConfKind::NoMemory,
        file: Text::from(Vec::new(alloc)),
        line: 0,
    }
}
