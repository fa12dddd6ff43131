// The drawing program: it draws two points from the system's entropy, writes them to point.bin of the current folder, for its owner alone,
// and prints one line, never a point.
#![tactic(auto)]

fn main(rt: HostRuntime) {
    let mut random = [0u8; 128];
    let mut file = [0u8; 8];
    let made = point_draw::make_point(&rt, b"point.bin", &mut random, &mut file);
    io::write_all(1, made.line.as_bytes());
}
