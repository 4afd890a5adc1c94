// A long sheet of random additions, removals, questions and listings.
// It reads at most the first 1,048,576 bytes of its input (`MOST` in crates/sheet_meaning/specs/Sheets.antt).
#![tactic(auto)]

fn main(rt: HostRuntime) {
    program_sheet::run(&rt);
}
