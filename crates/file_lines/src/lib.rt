// What is printed of a file: the labels of its table as `L` prints them, or `refused` and the number.
#![tactic(auto)]

ghost use Rattle.file_lines.specs.Loads.{LoadWrites};

use file_calls::load;
use reading::labels_of;
use refusals::{Refusal, refusal_number};
use sheet_label_lines::{LABELS_ROOM, write_labels};
use sheet_printing::write_named;
use table::Table;

// Writes what is printed of any bytes from the start of the buffer: the labels of the table that they record, or
// `refused` and the number of the first question answered no. Answers how many bytes that are. A buffer without room
// for the lines of every atom is refused by 11, and nothing is written.
pub fn load_lines(bytes: &[u8], out: &mut [u8]) -> Result<usize, Refusal>
    ensures { LoadWrites bytes.now out.old result out.new }
{
    if out.len() < LABELS_ROOM {
        return Err(Refusal::BufferTooShort(LABELS_ROOM));
    }
    let mut table = Table::empty();
    match load(&mut table, bytes) {
        Ok(()) => {
            let labels = labels_of(&table.words);
            Ok(write_labels(out, 0, labels))
        }
        Err(f) => Ok(write_named(out, 0, b"refused", refusal_number(f))),
    }
}
