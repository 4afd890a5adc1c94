// The file of a table's rules and marks, written into a lent buffer block by block.
#![tactic(auto)]

ghost use Rattle.std.specs.Prelude.{◌≡◌, ◌+◌, ◌-◌, ◌*◌, ◌≤◌, ◌<◌, length, take, drop, replicate};
ghost use Rattle.theory.specs.Limits.{document};
ghost use Rattle.table.specs.Rules.{book_of};
ghost use Rattle.table.specs.Words.{rules_of};
ghost use Rattle.fields.specs.Written.{Wrote};
ghost use Rattle.file_blocks.specs.Files as format;
ghost use Rattle.file_records.specs.Held.{HeldIn, CleanSlots};
ghost use Rattle.file_saving.specs.Bytes.{header_bytes, sums_bytes, block_bytes};

use file_blocks::{BLOCK, BODY, HEADER, PLACE, PLACES, sums, write_word};
use file_records::{HeldSlots, write_records};
use table::Table;

// How many blocks so many records take: none still take one.
pub fn blocks_for(count: usize) -> usize
    requires { count ≤ document.slots }
    ensures { result ≡ format.blocks_for count }
{
    if count == 0 {
        return 1;
    }
    (count + PLACES - 1) / PLACES
}

// Writes zeros from a place to below another.
fn write_zeros(out: &mut [u8], at: usize, to: usize)
    requires { (at ≤ to) × (to ≤ length out.old) }
    ensures { Wrote (replicate (to - at) 0) out.old at out.new to }
{
    out[at..to].fill(0);
}

// Writes the head of a block: its index, the number of blocks, the number of its records.
fn write_header(out: &mut [u8], at: usize, index: u16, blocks: u16, count: u16)
    requires { at + format.HEADER ≤ length out.old }
    ensures { Wrote (header_bytes index blocks count)
        out.old at out.new (at + format.HEADER) }
{
    write_word(out, at, index);
    write_word(out, at + 2, blocks);
    write_word(out, at + 4, count);
}

// Writes the two sums of a block's first 508 bytes behind them.
fn write_sums(out: &mut [u8], at: usize)
    requires { at + format.BLOCK ≤ length out.old }
    ensures { Wrote (sums_bytes (take format.BODY (drop at out.old)))
        out.old (at + format.BODY) out.new (at + format.BLOCK) }
{
    let end = at + BODY;
    let pair = sums(&out[at..end]);
    write_word(out, end, pair.a);
    write_word(out, end + 2, pair.b);
}

// Writes the block of an index. What the buffer had is written over: unused places are zero.
fn write_block(
    out: &mut [u8],
    table: &[u16; Table::WORDS],
    held: HeldSlots,
    index: usize,
    blocks: usize,
)
    requires clean_slots { CleanSlots (rules_of table.now) }
    requires held_in { HeldIn (book_of (rules_of table.now)) held }
    requires blocks_value { (blocks ≡ format.blocks_for held.count) × (index < blocks)
        × (format.BLOCK * blocks ≤ length out.old) }
    ensures { Wrote (block_bytes index blocks (rules_of table.now))
        out.old (format.BLOCK * index) out.new (format.BLOCK * (index + 1)) }
{
    let at = BLOCK * index;
    let from = PLACES * index;
    let count = PLACES.min(held.count - from);
    write_header(out, at, index as u16, blocks as u16, count as u16);
    write_records(out, at + HEADER, table, held, from, count);
    write_zeros(out, at + HEADER + PLACE * count, at + BODY);
    write_sums(out, at);
}

// Writes the file of the rules and their marks from the start of the buffer, which has room for it.
pub fn write_file(out: &mut [u8], table: &[u16; Table::WORDS], held: HeldSlots, blocks: usize)
    requires clean_slots { CleanSlots (rules_of table.now) }
    requires held_in { HeldIn (book_of (rules_of table.now)) held }
    requires blocks_value { (blocks ≡ format.blocks_for held.count) × (format.BLOCK * blocks ≤ length out.old) }
    ensures { Wrote (format.file_of (book_of (rules_of table.now)))
        out.old 0 out.new (format.BLOCK * blocks) }
{
    for i in 0..blocks {
        write_block(out, table, held, i, blocks);
    }
}
