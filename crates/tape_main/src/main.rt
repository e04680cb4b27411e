// Runs the request tape on standard input, and writes its lines to standard output.
// There is no heap, so what is read and written has its place here. One byte more than the longest tape, so that a longer one is seen to be too long.
#![tactic(auto)]

const READ: usize = 32_769;

fn main(rt: HostRuntime) {
    let mut input = [0u8; READ];
    let Ok(n) = streams::read(&rt, &mut rt.stdin(), &mut input) else {
        return;
    };
    let mut buffer = [0u8; tape::BUFFER];
    let mut out = [0u8; tape::ROOM];
    let k = tape::run(&input[..n], &mut buffer, &mut out);
    let _ = streams::write(&rt, &out[..k]);
}
