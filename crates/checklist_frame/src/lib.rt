// The files of a checklist and their atoms; are a table's rules those of a checklist, and of how many files? These
// leaves take atoms apart, and of the checklist's functions only these read a table's slots.
#![tactic(auto)]

ghost use Rattle.std.specs.Prelude.{◌≡◌, true, ◌↔◌, ◌≤◌, take};
ghost use Rattle.std.proofs.Math.Option.{some};
ghost use Rattle.theory.specs.Rules.{entries};
ghost use Rattle.table.specs.Rules.{numbers, page_of, active_in, book_of, active_of};
ghost use Rattle.table.specs.Words.{rules_of};
ghost use Rattle.checklist_frame.specs.Frame.{most_files, good, fact, frame, on_list, is_mark, files_of};
ghost use Rattle.checklist_frame.specs.Parts.{mark_atom, FreeOrMark, FrameRun, MarksBehind, files_told};

use table::slots::rule_at;
use table::{Atom, Rule, Table};

// The most files of a checklist.
pub const MOST_FILES: usize = 60;

// The two marks that a file can have.
#[derive(Clone, Copy)]
pub enum Mark {
    Sent,
    Skipped,
}

// The atom of a mark of file i, from 1.
pub fn mark_atom(mark: Mark, i: u16) -> Atom
    requires { (1 ≤ i) × (i ≤ most_files) }
    ensures { result.0 ≡ mark_atom mark i }
{
    match mark {
        Mark::Sent => Atom(3 * i - 2),
        Mark::Skipped => Atom(3 * i - 1),
    }
}

// The atom of file i's good; that of file 0 is the start.
pub fn good_atom(i: u16) -> Atom
    requires { i ≤ most_files }
    ensures { result.0 ≡ good i }
{
    Atom(3 * i)
}

// Is the file one of n?
pub fn on_list(file: u32, n: usize) -> bool
    requires { n ≤ most_files }
    ensures { result ≡ on_list (some n) file }
{
    if file == 0 {
        return false;
    }
    if file as usize > n {
        return false;
    }
    true
}

// Does the slot hold this atom as a fact, unmuted?
fn holds_fact(rule: Rule, atom: Atom) -> bool
    ensures { (result ≡ true) ↔ (active_in rule ≡ some (fact atom.0)) }
{
    if rule.head.0 != atom.0 {
        return false;
    }
    if rule.positives != 0 {
        return false;
    }
    if rule.negatives != 0 {
        return false;
    }
    rule.state == 1
}

// Are these the entries of the frame's rule of file i, from 1?
fn file_entries(atoms: [Atom; Table::ENTRIES], i: u16) -> bool
    requires { (1 ≤ i) × (i ≤ most_files) }
    ensures { (result ≡ true) ↔ (numbers (take 3 atoms) ≡ entries (frame i)) }
{
    if atoms[0].0 != 3 * i - 3 {
        return false;
    }
    if atoms[1].0 != 3 * i - 2 {
        return false;
    }
    if atoms[2].0 != 3 * i - 1 {
        return false;
    }
    true
}

// Does the slot hold the frame's rule of file i, from 1, unmuted?
fn holds_file(rule: Rule, i: u16) -> bool
    requires { (1 ≤ i) × (i ≤ most_files) }
    ensures { (result ≡ true) ↔ (active_in rule ≡ some (frame i)) }
{
    if rule.state != 1 {
        return false;
    }
    if rule.head.0 != 3 * i {
        return false;
    }
    if rule.positives != 2 {
        return false;
    }
    if rule.negatives != 1 {
        return false;
    }
    let atoms = rule.entries;
    file_entries(atoms, i)
}

// Is the atom a mark of one of n files?
fn is_mark(atom: Atom, n: u16) -> bool
    requires { n ≤ most_files }
    ensures { result ≡ is_mark n atom.0 }
{
    if atom.0 >= 3 * n {
        return false;
    }
    if atom.0 % 3 == 0 {
        return false;
    }
    true
}

// Is the slot free, or does it hold the fact of a mark of one of n files, unmuted?
fn free_or_mark(rule: Rule, n: u16) -> bool
    requires { n ≤ most_files }
    ensures { (result ≡ true) ↔ FreeOrMark n (page_of rule) }
{
    if rule.state == 0 {
        return true;
    }
    let atom = rule.head;
    if !is_mark(atom, n) {
        return false;
    }
    holds_fact(rule, atom)
}

// Of how many files, at most 60, the frame stands in slots 0, 1, 2, .. one after another, unmuted.
fn frame_run(table: &[u16; Table::WORDS]) -> usize
    ensures { FrameRun (active_of (rules_of table.now)) result }
{
    let start = rule_at(table, 0);
    if !holds_fact(start, Atom(0)) {
        return 0;
    }
    for n in 0..MOST_FILES {
        let rule = rule_at(table, n + 1);
        if !holds_file(rule, n as u16 + 1) {
            return n;
        }
    }
    MOST_FILES
}

// Does every slot behind the frame of n files hold nothing, or the fact of a mark, unmuted?
fn marks_behind(table: &[u16; Table::WORDS], n: usize) -> bool
    requires { n ≤ most_files }
    ensures { MarksBehind (book_of (rules_of table.now)) n result }
{
    for s in n + 1..Table::SLOTS {
        let rule = rule_at(table, s);
        if !free_or_mark(rule, n as u16) {
            return false;
        }
    }
    true
}

// How many files the checklist has that the rules are, if they are one.
pub fn file_count(table: &[u16; Table::WORDS]) -> Option<usize>
    ensures { files_told result ≡ files_of (book_of (rules_of table.now)) }
{
    let n = frame_run(table);
    if n == 0 {
        return None;
    }
    if !marks_behind(table, n) {
        return None;
    }
    Some(n)
}
