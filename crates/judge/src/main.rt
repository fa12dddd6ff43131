// The judging program: it reads plan.drn, plan.dra and point.bin of the current folder, and prints one line.
#![tactic(auto)]

use plan_files::answer_line;
use program_io::front;

fn main(rt: HostRuntime) {
    let mut point = [0u8; 8];
    let mut net = front::room();
    let mut ann = front::room();
    let judged = answer_line::judge_files(
        &rt,
        b"point.bin",
        b"plan.drn",
        b"plan.dra",
        &mut point,
        &mut net,
        &mut ann,
    );
    io::write_all(1, judged.line.as_bytes());
}
