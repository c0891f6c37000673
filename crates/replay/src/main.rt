// Replays the recording on standard input, from power-up over memory that starts as zeros. The listing goes to standard output, and then, if all of it
// was taken, the line that sums it up to standard error: no line, no verdict. Where the recording cannot be read, that is all it says.
#![tactic(auto)]

fn main(rt: HostRuntime) {
    // One byte more than a recording may have, so that a longer one is seen.
    let mut input = [0u8; 16384];
    let Ok(length) = console::read_input(&mut rt.stdin(), &mut input) else {
        let _ = rt.stderr().write_all(b"the recording could not be read\n");
        return;
    };
    let mut rdram = [0u8; 32768];
    let mut dmem = [0u8; 4096];
    let mut imem = [0u8; 4096];
    let mut out = [0u8; 69204];
    let mut line = [0u8; 128];
    let done = console::judge(
        &input[..length],
        &mut rdram,
        &mut dmem,
        &mut imem,
        &mut out,
        &mut line,
    );
    if rt.stdout().write_all(&out[..done.listing]).is_ok() {
        let _ = rt.stderr().write_all(&line[..done.summary]);
    }
}
