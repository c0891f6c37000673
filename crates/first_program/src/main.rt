// A first program over the public calls: a transfer of two words, and its answer.
#![tactic(auto)]

use std::io;

fn main(rt: HostRuntime) -> io::Result<()> {
    let mut rdram = [0u8; 32768];
    let mut dmem = [0u8; 4096];
    let mut imem = [0u8; 4096];
    let mut words = [0u8; 64];
    rdram[7] = b'*';
    // RDLEN 0x0F loads two words. The run has a budget for the SP, the DP and the consumer.
    let state = calls::write_register(calls::power_up(), 0x04040008, 0x0F).state;
    let ran = calls::run(
        state, 100, 100, 100, &mut rdram, &mut dmem, &mut imem, &mut words,
    );
    let answer = ran.outcome.answer;
    if answer.number != 0 {
        return println!(rt; "refused");
    }
    println!(rt;
        "{} words moved, byte 7 of DMEM is {}",
        answer.count,
        char::from(dmem[7])
    )
}
