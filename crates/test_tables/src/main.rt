// The small tables T1 to T11 (specification 10.1) with their labels and reasons; then tables in which rules are
// replaced. It reads at most the first 1,048,576 bytes of its input (`MOST` in crates/sheet_meaning/specs/Sheets.antt).
#![tactic(auto)]

fn main(rt: HostRuntime) {
    program_sheet::run(&rt);
}
