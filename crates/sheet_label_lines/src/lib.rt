// The lines that are printed of the labels. They are written at a place of a lent buffer that has room for the longest
// line of every atom; else nothing is written.
#![tactic(auto)]

ghost use Rattle.std.specs.Prelude.{◌+◌, ◌≤◌, ◌<◌, length};
ghost use Rattle.theory.specs.Limits.{document};
ghost use Rattle.table.specs.Labels.{label_of, label_listed};
ghost use Rattle.fields.specs.Written.{Wrote, WroteIn};
ghost use Rattle.sheet_label_lines.specs.LabelLines.{LABELS_ROOM, in_line, label_line, label_lines};

use fields::{bytes_left, write_bytes, write_field, write_number};
use table::{Label, Table};

// Room for the lines of all labels: that of an atom has at most 32 bytes.
pub const LABELS_ROOM: usize = 32 * Table::ATOMS;

// What follows the number of an atom that is in: `in`, depth, supporting slot.
fn write_in(out: &mut [u8], at: usize, depth: u32, slot: u32) -> usize
    requires { at + 26 ≤ length out.old }
    ensures { Wrote (in_line depth slot) out.old at out.new result }
{
    let a = write_bytes(out, at, b" in");
    let b = write_field(out, a, depth);
    let c = write_field(out, b, slot);
    write_bytes(out, c, b"\n")
}

// The line of an atom, if it occurs.
fn write_label(out: &mut [u8], at: usize, atom: u32, label: Label) -> usize
    requires atom_lt_atoms { atom < document.atoms }
    requires at_in_bounds { at + 32 ≤ length out.old }
    ensures wrote { Wrote (label_line atom (label_of label)) out.old at out.new result }
    ensures short { result ≤ at + 32 }
{
    match label {
        Label::Absent => at,
        Label::Out => {
            let a = write_number(out, at, atom);
            write_bytes(out, a, b" out\n")
        }
        Label::In(depth, slot) => {
            let b = write_number(out, at, atom);
            write_in(out, b, depth as u32, slot.0 as u32)
        }
    }
}

// The lines of all atoms that occur, ascending.
pub fn write_labels(out: &mut [u8], at: usize, labels: [Label; Table::ATOMS]) -> usize
    ensures { WroteIn LABELS_ROOM (label_lines (label_listed labels) document.atoms)
        out.old at out.new result }
{
    if bytes_left(out.len(), at) < LABELS_ROOM {
        return at;
    }
    let mut next = at;
    for atom in 0..Table::ATOMS {
        let label = labels[atom];
        next = write_label(out, next, atom as u32, label);
    }
    next
}
