// The calls that keep a table on disk: save writes its file into a lent buffer, load makes a table of a file's bytes.
#![tactic(auto)]

ghost use Rattle.table.specs.Words.{table_of};
ghost use Rattle.calls.specs.Ends.{SaveEnds, LoadEnds};

use file_blocks::BLOCK;
use file_loading::read_records;
use file_questions::{check_blocks, whole};
use file_records::held_slots;
use file_saving::{blocks_for, write_file};
use from_rules::make;
use refusals::Refusal;
use sound::sound;
use table::Table;

// Writes the file of the table from the start of the buffer and answers its length, or refuses by the first question
// answered no, and writes nothing.
pub fn save(table: &[u16; Table::WORDS], buffer: &mut [u8]) -> Result<usize, Refusal>
    ensures { SaveEnds (table_of table.now) buffer.old result buffer.new }
{
    if !sound(table) {
        return Err(Refusal::TableUnsound);
    }
    let held = held_slots(table);
    let n = blocks_for(held.count);
    let needed = BLOCK * n;
    if buffer.len() < needed {
        return Err(Refusal::BufferTooShort(needed));
    }
    write_file(buffer, table, held, n);
    Ok(needed)
}

// The table becomes the one that the file records; or the empty one, with a refusal by the first question answered no.
pub fn load(table: &mut Table, bytes: &[u8]) -> Result<(), Refusal>
    ensures { LoadEnds bytes.now result table.new }
{
    *table = Table::empty();
    if !whole(bytes) {
        return Err(Refusal::WrongLength);
    }
    let checked = check_blocks(bytes);
    if !checked.summed {
        return Err(Refusal::WrongChecksum);
    }
    if !checked.numbered {
        return Err(Refusal::WrongBlock);
    }
    if !checked.filled {
        return Err(Refusal::WrongRecord); // what stands behind the records
    }
    let Some(read) = read_records(bytes) else {
        return Err(Refusal::WrongRecord); // the records
    };
    let mut words = read.words;
    if !make(&mut words) {
        return Err(Refusal::WrongRecord); // questions 5 and 7
    }
    table.words = words;
    Ok(())
}
