// A table made from its rules at once.
#![tactic(auto)]

ghost use Rattle.table.specs.Words.{rules_of};
ghost use Rattle.from_rules.specs.Making.{WellFormedSlots, Made};

use labels::relabel;
use table::Table;
use well_formed::no_two_equal;

// Makes a sound table of the rules that the slots hold, each well formed: what the slots keep is found anew. Are no two
// rules the same, and is there no loop through a negation? If not, nothing is changed.
pub fn make(table: &mut [u16; Table::WORDS]) -> bool
    requires { WellFormedSlots (rules_of table.old) }
    ensures { Made table.old table.new result }
{
    if !no_two_equal(table) {
        return false;
    }
    relabel(table)
}
