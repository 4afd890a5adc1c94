// The saving program: it reads a sheet and prints the blocks of the table that it leaves, and nothing for its lines.
// It reads at most the first 1,048,576 bytes of its input (`MOST` in crates/sheet_meaning/specs/Sheets.antt).
#![tactic(auto)]

fn main(rt: HostRuntime) {
    program_files::save_run(&rt);
}
