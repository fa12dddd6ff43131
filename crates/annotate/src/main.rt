// The annotating program: it reads plan.drn of the current folder, writes plan.dra for it, and prints one line.
#![tactic(auto)]

use plan_annotations::annotation_line;
use program_io::front;

fn main(rt: HostRuntime) {
    let mut net = front::room();
    let mut ann = front::room();
    let annotated = annotation_line::annotate_files(
        &rt,
        b"plan.drn",
        b"plan.dra",
        &mut net,
        &mut ann,
    );
    io::write_all(1, annotated.line.as_bytes());
}
