// The loading program: it reads blocks and prints the labels of their table as `L` does, or `refused` and the number.
// It reads at most the first 6,145 bytes of its input: one more than a file can have (`LoadsInput` in
// crates/program_files/specs/Loads.antt). What it prints is the same for all that follows them.
#![tactic(auto)]

fn main(rt: HostRuntime) {
    program_files::load_run(&rt);
}
