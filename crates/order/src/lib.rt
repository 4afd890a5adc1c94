// A guess: numbers of the atoms by which no dependency goes up. Where rules stand after those that they depend on, one
// round up the slots finds them. Else atoms that depend on each other make a group (Pearce's algorithm, without
// recursion), and groups are numbered as they are left, those that others depend on first. Nothing is promised of the
// numbers but that they are found in the end: crates/loops tests what they are good for. So a test stands in place of
// a proof wherever a place is read or written, and sums wrap.
#![tactic(auto)]

use table::Table;

pub mod by_order; // by_order.rt: the slots in the order guessed

// How many slots there are.
const SLOTS: u16 = Table::SLOTS as u16;

// No slot: where the rules of a head end. Arrays have it, since options would take twice the stack; `slot_at` answers
// one.
const NO_SLOT: u16 = SLOTS;

// What `Walk::reach` has for an atom that was not met, and for one that has its number. They are numbers and no enum,
// so that the earliest that entries lead to is a least number: NUMBERED is more than any count.
const UNMET: u16 = 0;

const NUMBERED: u16 = u16::MAX;

// Steps from one atom on. A table with no rule twice takes fewer: each entry is looked at once, and once more for each
// atom that is left for another.
const STEPS: usize = 8192;

// What is noted for an atom or a slot; NO_SLOT past the end.
fn noted(notes: &[u16], i: u16) -> u16 {
    notes.get(i as usize).copied().unwrap_or(NO_SLOT)
}

// It is noted, unless past the end.
fn note(notes: &mut [u16], i: u16, v: u16) {
    if let Some(noted) = notes.get_mut(i as usize) {
        *noted = v;
    }
}

// The slot that is noted for an atom or a slot, if one is.
fn slot_at(slots: &[u16], i: u16) -> Option<u16> {
    let slot = noted(slots, i);
    if slot < NO_SLOT { Some(slot) } else { None }
}

// The number at a place of the table; 0 past the end.
fn word(table: &[u16; Table::WORDS], i: usize) -> u16 {
    table.get(i).copied().unwrap_or(0)
}

// The head of the rule of a slot, if it holds one.
fn head_of(table: &[u16; Table::WORDS], slot: u16) -> Option<u16> {
    if slot >= SLOTS {
        return None;
    }
    let b = Table::WIDTH * slot as usize;
    if word(table, b) == 0 {
        return None;
    }
    Some(word(table, b + 1))
}

// The entry at a place of the rule of a slot; 0 where there is none.
fn entry_at(table: &[u16; Table::WORDS], slot: u16, place: u16) -> u16 {
    let j = place as usize;
    if slot >= SLOTS || j >= Table::ENTRIES {
        return 0;
    }
    word(table, Table::WIDTH * slot as usize + 4 + j)
}

// Where the positive entries of the rule of a slot end, and where all end.
fn ends(table: &[u16; Table::WORDS], slot: u16) -> (u16, u16) {
    if slot >= SLOTS {
        return (0, 0);
    }
    let b = Table::WIDTH * slot as usize;
    let positives = word(table, b + 2);
    (positives, positives.wrapping_add(word(table, b + 3)))
}

// Where an atom is left for one that it depends on: behind the entry before `place` of the rule in `slot`, one of the
// atom's. `root` says whether the earliest atom that it is known to lead to is itself.
#[derive(Clone, Copy, Default)]
struct Place {
    atom: u16,
    slot: u16,
    place: u16,
    root: bool,
}

// The walk that finds the groups. `last` has the last slot of each head, `before` for a slot the one before it. The
// atoms met are counted, from 1 (`count` is the next); `reach` has for each atom met the earliest count that it is
// known to lead to. The walk is `at` an entry before `end`, of an atom for which that count is `earliest`. The first
// `left` of the `trail` are the places where atoms were left for others, and the first `waits` of `waiting` are atoms
// that wait for the root of their group, whose number is `group`.
#[derive(Drop)]
struct Walk<'a> {
    table: &'a [u16; Table::WORDS],
    numbers: &'a mut [u16; Table::ATOMS],
    last: [u16; Table::ATOMS],
    before: [u16; Table::SLOTS],
    reach: [u16; Table::ATOMS],
    trail: [Place; Table::ATOMS],
    waiting: [u16; Table::ATOMS],
    left: usize,
    waits: usize,
    at: Place,
    end: u16,
    earliest: u16,
    count: u16,
    group: u16,
}

impl Walk<'_> {
    // Which rules an atom heads is noted for one more slot.
    fn link(&mut self, slot: u16) {
        if let Some(head) = head_of(self.table, slot) {
            let earlier = noted(&self.last, head);
            note(&mut self.before, slot, earlier);
            note(&mut self.last, head, slot);
        }
    }

    // On to the first entry of a slot.
    fn enter(&mut self, slot: u16) {
        self.at.slot = slot;
        self.at.place = 0;
        self.end = ends(self.table, slot).1;
    }

    // The walk meets an atom: on to the first entry of its last rule, which is in the slot.
    fn meet(&mut self, atom: u16, slot: u16) {
        note(&mut self.reach, atom, self.count);
        self.at.atom = atom;
        self.at.root = true;
        self.earliest = self.count;
        self.count = self.count.wrapping_add(1);
        self.enter(slot);
    }

    // The atom at hand leads to one that reaches `earlier`: if that is earlier than what is known, the atom is no
    // root.
    fn lower(&mut self, earlier: u16) {
        if earlier < self.earliest {
            note(&mut self.reach, self.at.atom, earlier);
            self.earliest = earlier;
            self.at.root = false;
        }
    }

    // Behind the first entry of the rule at hand that was not met, which is answered, or past its end. What those
    // before it reach is known from then on.
    fn listen(&mut self) -> Option<u16> {
        let mut earliest = self.earliest;
        let mut unmet = None;
        let mut reached = self.end;
        for place in self.at.place..self.end {
            let atom = entry_at(self.table, self.at.slot, place);
            let r = noted(&self.reach, atom);
            if r == UNMET {
                unmet = Some(atom);
                reached = place;
                break;
            }
            earliest = earliest.min(r);
        }
        self.at.place = reached.wrapping_add(1);
        self.lower(earliest);
        unmet
    }

    // On through the entries of the rule at hand. An atom that was not met and heads no rule is a group by itself,
    // number 0; for any other the atom at hand is left.
    fn advance(&mut self) {
        let Some(atom) = self.listen() else {
            return;
        };
        let Some(slot) = slot_at(&self.last, atom) else {
            note(&mut self.reach, atom, NUMBERED);
            return;
        };
        if let Some(kept) = self.trail.get_mut(self.left) {
            *kept = self.at;
            self.left += 1;
            self.meet(atom, slot);
        }
    }

    // An atom gets the number of the group.
    fn number(&mut self, atom: u16) {
        let group = self.group;
        note(&mut self.reach, atom, NUMBERED);
        note(self.numbers, atom, group);
        self.count = self.count.wrapping_sub(1);
    }

    // The atom at hand is a root: it and those that wait for it get the number of the group.
    fn close(&mut self) {
        for i in (0..self.waits).rev() {
            let atom = self.waiting.get(i).copied().unwrap_or(0);
            if noted(&self.reach, atom) < self.earliest {
                break;
            }
            self.number(atom);
            self.waits = i;
        }
        self.number(self.at.atom);
        self.group = self.group.wrapping_add(1);
    }

    // The atom at hand has no rule left: it is a root, or waits for the root of its group.
    fn leave(&mut self) {
        if self.at.root {
            self.close();
        } else if let Some(waiting) = self.waiting.get_mut(self.waits) {
            *waiting = self.at.atom;
            self.waits += 1;
        }
    }

    // Back to the atom that was left for the one at hand, which leads to what that one reaches. Was there one?
    fn back(&mut self) -> bool {
        let Some(left) = self.left.checked_sub(1) else {
            return false;
        };
        let Some(kept) = self.trail.get(left).copied() else {
            return false;
        };
        let earlier = noted(&self.reach, self.at.atom);
        self.left = left;
        self.at = kept;
        self.end = ends(self.table, kept.slot).1;
        self.earliest = noted(&self.reach, kept.atom);
        self.lower(earlier);
        true
    }

    // One step: on through a rule's entries, or to the next rule of the atom, or back. Is the walk not over?
    fn step(&mut self) -> bool {
        if self.at.place < self.end {
            self.advance();
            return true;
        }
        if let Some(slot) = slot_at(&self.before, self.at.slot) {
            self.enter(slot);
            return true;
        }
        self.leave();
        self.back()
    }

    // From the head of a slot on, if it was not met, until the walk is over, or there are too many steps.
    fn from_slot(&mut self, slot: u16) {
        let Some(head) = head_of(self.table, slot) else {
            return;
        };
        if noted(&self.reach, head) != UNMET {
            return;
        }
        let Some(last) = slot_at(&self.last, head) else {
            return;
        };
        self.meet(head, last);
        for _ in 0..STEPS {
            if !self.step() {
                return;
            }
        }
    }
}

// Groups: a number for each atom that heads a rule, that of its group.
fn groups(table: &[u16; Table::WORDS], numbers: &mut [u16; Table::ATOMS]) {
    let mut walk = Walk {
        table,
        numbers,
        last: [NO_SLOT; Table::ATOMS],
        before: [NO_SLOT; Table::SLOTS],
        reach: [UNMET; Table::ATOMS],
        trail: [Place::default(); Table::ATOMS],
        waiting: [0; Table::ATOMS],
        left: 0,
        waits: 0,
        at: Place::default(),
        end: 0,
        earliest: 1,
        count: 1,
        group: 1,
    };
    for slot in 0..SLOTS {
        walk.link(slot);
    }
    for slot in 0..SLOTS {
        walk.from_slot(slot);
    }
}

// Entries of the rule of a slot: those from one place to before another.
#[derive(Clone, Copy)]
struct Entries {
    slot: u16,
    from: u16,
    to: u16,
}

// One round up the slots: the numbers, and for each atom the greatest that the slots below allow it.
#[derive(Drop)]
struct Round<'a> {
    table: &'a [u16; Table::WORDS],
    numbers: &'a mut [u16; Table::ATOMS],
    most: [u16; Table::ATOMS],
}

impl Round<'_> {
    // The least number for the head that is not below those of the entries, each made greater by a step.
    fn needed(&self, entries: Entries, step: u16) -> u16 {
        let mut least: u16 = 0;
        for place in entries.from..entries.to {
            let atom = entry_at(self.table, entries.slot, place);
            least = least.max(noted(self.numbers, atom).wrapping_add(step));
        }
        least
    }

    // None of the entries may have a greater number than this one from now on.
    fn limit(&mut self, entries: Entries, greatest: u16) {
        for place in entries.from..entries.to {
            let atom = entry_at(self.table, entries.slot, place);
            let most = noted(&self.most, atom);
            note(&mut self.most, atom, most.min(greatest));
        }
    }

    // The head of a slot is raised to what its rule needs: do the slots below allow it?
    fn raise(&mut self, slot: u16) -> bool {
        let Some(head) = head_of(self.table, slot) else {
            return true;
        };
        let (p, end) = ends(self.table, slot);
        let positive = Entries {
            slot,
            from: 0,
            to: p,
        };
        let negative = Entries {
            slot,
            from: p,
            to: end,
        };
        let needed = self.needed(positive, 0).max(self.needed(negative, 1));
        let n = needed.max(noted(self.numbers, head));
        if n > noted(&self.most, head) {
            return false;
        }
        note(self.numbers, head, n);
        self.limit(positive, n);
        self.limit(negative, n.wrapping_sub(1));
        true
    }
}

// One round up the slots, as long as no head is raised above what a slot below allows.
fn one_round(table: &[u16; Table::WORDS], numbers: &mut [u16; Table::ATOMS]) -> bool {
    let mut round = Round {
        table,
        numbers,
        most: [u16::MAX; Table::ATOMS],
    };
    for slot in 0..SLOTS {
        if !round.raise(slot) {
            return false;
        }
    }
    true
}

// A number for each atom, guessed. One round does where rules stand after those that they depend on, and it ends early
// where they do not; then the groups are sought.
pub fn order(table: &[u16; Table::WORDS], numbers: &mut [u16; Table::ATOMS]) {
    if !one_round(table, numbers) {
        groups(table, numbers);
    }
}
