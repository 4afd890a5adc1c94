// Question 15: is the table sound (specification 3.4)? What is kept is checked as a certificate, in passes over the
// slots.
#![tactic(auto)]

ghost use Rattle.std.specs.Prelude.{◌≡◌, true, ◌↔◌};
ghost use Rattle.table.specs.Words.{table_of};
ghost use Rattle.table.specs.Sound.{Sound};

use certificate::certified;
use loops::acyclic;
use table::Table;
use well_formed::{no_two_equal, slots_well_formed};

// Is the table sound?  For any numbers whatever.
pub fn sound(table: &[u16; Table::WORDS]) -> bool
    ensures { (result ≡ true) ↔ Sound (table_of table.now) }
{
    if !slots_well_formed(table) {
        return false;
    }
    if !certified(table) {
        return false;
    }
    if !no_two_equal(table) {
        return false;
    }
    acyclic(table)
}
