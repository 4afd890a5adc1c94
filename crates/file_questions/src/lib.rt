// The questions that are asked of a file's length and of its blocks: 16, 17, 18, and 19 of what stands behind the records
// (specification 7.7).
#![tactic(auto)]

ghost use Rattle.std.specs.Prelude.{◌≡◌, ◌≤◌, length};
ghost use Rattle.file_blocks.specs.Files as format;
ghost use Rattle.file_blocks.specs.Questions.{block_count, whole, summed, counted, filled};
ghost use Rattle.file_questions.specs.Blocks.{block_numbered, CheckedNext, CheckedOf};

use file_blocks::{BLOCK, BODY, HEADER, LONGEST, PLACE, PLACES, sums, word_at};

// What the questions of blocks are answered: sums (17), index and numbers (18), filler (19).
#[derive(Clone, Copy)]
pub struct Checked {
    pub summed: bool,
    pub numbered: bool,
    pub filled: bool,
}

// 16: Is the length 512 times 1 to 12?
pub fn whole(bytes: &[u8]) -> bool
    ensures { result ≡ whole bytes.now }
{
    let n = bytes.len();
    if n % BLOCK != 0 {
        return false;
    }
    if n < BLOCK {
        return false;
    }
    n <= LONGEST
}

// 17, of a block: are A and B right?
fn block_summed(block: &[u8]) -> bool
    requires { length block.now ≡ format.BLOCK }
    ensures { result ≡ summed block.now }
{
    let body = sums(&block[..BODY]);
    if word_at(block, BODY) != body.a {
        return false;
    }
    word_at(block, BODY + 2) == body.b
}

// 18, of the number of records: 22 in every block but the last, there 1 to 22, or 0 if it is the only one.
fn counted(blocks: usize, index: usize, count: usize) -> bool
    requires { index ≤ format.BLOCKS }
    ensures { result ≡ counted blocks index count }
{
    if index + 1 < blocks {
        return count == PLACES;
    }
    if count > PLACES {
        return false;
    }
    if count > 0 {
        return true;
    }
    blocks == 1
}

// 18, of a block: are index, number of blocks and number of records right?
fn block_numbered(block: &[u8], blocks: usize, index: usize) -> bool
    requires { (length block.now ≡ format.BLOCK) × (index ≤ format.BLOCKS) }
    ensures { result ≡ block_numbered blocks index block.now }
{
    let i = word_at(block, 0) as usize;
    if i != index {
        return false;
    }
    let n = word_at(block, 2) as usize;
    if n != blocks {
        return false;
    }
    let count = word_at(block, 4) as usize;
    counted(blocks, index, count)
}

// 19, of a block: is all that stands behind its records zero? Up to the sums, which are no filler.
fn block_filled(block: &[u8]) -> bool
    requires { length block.now ≡ format.BLOCK }
    ensures { result ≡ filled block.now }
{
    let count = word_at(block, 4) as usize;
    block[..BODY]
        .iter()
        .skip(HEADER + PLACE * count)
        .all(|&x| x == 0)
}

// The questions of a block, and of those before it.
fn check_block(block: &[u8], blocks: usize, index: usize, before: Checked) -> Checked
    requires { (length block.now ≡ format.BLOCK) × (index ≤ format.BLOCKS) }
    ensures { CheckedNext blocks index before block.now result }
{
    let summed = block_summed(block);
    let numbered = block_numbered(block, blocks, index);
    let filled = block_filled(block);
    Checked {
        summed: before.summed & summed,
        numbered: before.numbered & numbered,
        filled: before.filled & filled,
    }
}

// The questions of all blocks of a file that has at most 12.
pub fn check_blocks(bytes: &[u8]) -> Checked
    requires { block_count bytes.now ≤ format.BLOCKS }
    ensures { CheckedOf bytes.now result }
{
    let blocks = bytes.len() / BLOCK;
    let mut checked = Checked {
        summed: true,
        numbered: true,
        filled: true,
    };
    for i in 0..blocks {
        let at = BLOCK * i;
        checked = check_block(&bytes[at..at + BLOCK], blocks, i, checked);
    }
    checked
}
