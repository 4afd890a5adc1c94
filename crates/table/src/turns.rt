// Rounds over the slots that walk upwards or downwards.
ghost use Rattle.std.specs.Prelude.{◌≡◌};
ghost use Rattle.theory.specs.Limits.{document};
ghost use Rattle.table.specs.Turns.{slot_at};

use super::Table;

// The slot to which a round comes after i others. From SLOTS on there is none: a walk downwards stays at slot 0.
pub fn slot_at(down: bool, i: usize) -> usize
    ensures { result ≡ slot_at document.slots down i }
{
    if !down {
        return i;
    }
    if i >= Table::SLOTS {
        return 0;
    }
    Table::SLOTS - 1 - i
}
