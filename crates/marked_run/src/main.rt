// Drives the machine through the twelve marked examples by its public calls, and prints what it reads: a line for each example, numbers in
// hexadecimal. The expected output holds the values that the rules give, and request (iii) for M8 to M10. In M9 and M11 a turn is a fetch and a consumer
// turn; in M12 it is a fetch.
#![tactic(auto)]

use checks::power_up;
use machine::{Outcome, State};
use std::io;

const SP_ADDR: u32 = 0x04040000;

const RAM_ADDR: u32 = 0x04040004;

const RD_LEN: u32 = 0x04040008;

const SP_STATUS: u32 = 0x04040010;

const DMA_BUSY: u32 = 0x04040018;

const SEMAPHORE: u32 = 0x0404001C;

const START: u32 = 0x04100000;

const END: u32 = 0x04100004;

const CURRENT: u32 = 0x04100008;

const DP_STATUS: u32 = 0x0410000C;

// The machine of the examples, with its memory, which starts as zeros; and where they are printed.
#[derive(Drop)]
struct Machine<'a> {
    rt: &'a HostRuntime,
    state: State,
    rdram: [u8; 32768],
    dmem: [u8; 4096],
    imem: [u8; 4096],
}

impl Machine<'_> {
    // Begins the line of an example, from power-up.
    fn begin(&mut self, name: &str) -> io::Result<()> {
        self.state = power_up();
        print!(self.rt; "{name}")
    }

    // Shows a number in eight digits, and what is above 32 bits before it, if anything is.
    fn show(&self, n: u64) -> io::Result<()> {
        if 0xFFFFFFFF < n {
            print!(self.rt; " {:08X}", n >> 32)?;
        }
        print!(self.rt; " {:08X}", n & 0xFFFFFFFF)
    }

    // Goes on with the state that a call left. A declined call, which no example has, shows its
    // number.
    fn go_on(&mut self, done: Outcome) -> io::Result<()> {
        self.state = done.state;
        if done.answer.number != 0 {
            print!(self.rt; " declined")?;
            self.show(done.answer.number as u64)?;
        }
        Ok(())
    }

    // Reads a register and shows its value.
    fn read(&mut self, a: u32) -> io::Result<()> {
        let done = access::read_register(self.state, a);
        self.show(done.answer.value)?;
        self.go_on(done)
    }

    fn write(&mut self, a: u32, v: u32) -> io::Result<()> {
        self.go_on(access::write_register(self.state, a, v))
    }

    fn sp_turns(&mut self, n: u32) -> io::Result<()> {
        for _ in 0..n {
            let done = engines::sp_turn(
                self.state,
                &mut self.rdram,
                &mut self.dmem,
                &mut self.imem,
            );
            self.go_on(done)?;
        }
        Ok(())
    }

    fn fetch(&mut self) -> io::Result<()> {
        let done = engines::dp_turn(self.state, &self.rdram, &self.dmem);
        self.go_on(done)
    }

    // Turns that each are a fetch and a consumer turn.
    fn dp_turns(&mut self, n: u32) -> io::Result<()> {
        for _ in 0..n {
            self.fetch()?;
            self.go_on(engines::consumer_turn(self.state))?;
        }
        Ok(())
    }

    // Power-up.
    fn m1(&mut self) -> io::Result<()> {
        self.begin("M1")?;
        self.read(SP_STATUS)?;
        self.read(DP_STATUS)
    }

    // Shows RAMADDR, SPADDR and the length.
    fn show_transfer(&mut self) -> io::Result<()> {
        self.read(RAM_ADDR)?;
        self.read(SP_ADDR)?;
        self.read(RD_LEN)
    }

    // Nine turns of a transfer with rows.
    fn m2(&mut self) -> io::Result<()> {
        self.begin("\nM2")?;
        self.write(RAM_ADDR, 0x1000)?;
        self.write(RD_LEN, 0x0200B03F)?;
        self.sp_turns(9)?;
        self.show_transfer()
    }

    // The rest of its 96 turns.
    fn m3(&mut self) -> io::Result<()> {
        print!(self.rt; "\nM3")?;
        self.sp_turns(87)?;
        self.show_transfer()
    }

    // A run of the SP with the largest budget; shows its count.
    fn whole_run(&mut self) -> io::Result<()> {
        let done = runs::run(
            self.state,
            0xFFFFFFFF,
            0,
            0,
            &mut self.rdram,
            &mut self.dmem,
            &mut self.imem,
            &mut [0u8; 8],
        )
        .outcome;
        self.show(done.answer.count as u64)?;
        self.go_on(done)
    }

    // The longest transfer: the turns of its run, DMA_BUSY and RAMADDR at its end.
    fn m4(&mut self) -> io::Result<()> {
        self.begin("\nM4")?;
        self.write(RD_LEN, 0xFFFFFFFF)?;
        self.whole_run()?;
        self.read(DMA_BUSY)?;
        self.read(RAM_ADDR)
    }

    // A bank address goes round inside IMEM.
    fn m5(&mut self) -> io::Result<()> {
        self.begin("\nM5")?;
        self.write(SP_ADDR, 0xFFFFFFFF)?;
        self.write(RD_LEN, 0x0F)?;
        self.sp_turns(2)?;
        self.read(SP_ADDR)
    }

    // A signal is set; both bits of a pair leave HALTED off, and on.
    fn m6(&mut self) -> io::Result<()> {
        self.begin("\nM6")?;
        self.write(SP_STATUS, 0x01000000)?;
        self.read(SP_STATUS)?;
        self.write(SP_STATUS, 3)?;
        self.read(SP_STATUS)?;
        self.write(SP_STATUS, 2)?;
        self.write(SP_STATUS, 3)?;
        self.read(SP_STATUS)
    }

    fn m7(&mut self) -> io::Result<()> {
        self.begin("\nM7")?;
        self.read(SEMAPHORE)?;
        self.read(SEMAPHORE)?;
        self.write(SEMAPHORE, 1)?;
        self.read(SEMAPHORE)
    }

    // Writes START and END.
    fn write_list(&mut self, start: u32, end: u32) -> io::Result<()> {
        self.write(START, start)?;
        self.write(END, end)
    }

    // An empty list.
    fn m8(&mut self) -> io::Result<()> {
        self.begin("\nM8")?;
        self.write_list(0x2000, 0x2000)?;
        self.read(DP_STATUS)
    }

    // A list that waits for another.
    fn m9(&mut self) -> io::Result<()> {
        self.begin("\nM9")?;
        self.write_list(0x2000, 0x2018)?;
        self.write_list(0x3000, 0x3008)?;
        self.read(DP_STATUS)?;
        self.dp_turns(3)?;
        self.read(CURRENT)?;
        self.read(DP_STATUS)
    }

    // FREEZE, and off again.
    fn m10(&mut self) -> io::Result<()> {
        self.begin("\nM10")?;
        self.write(DP_STATUS, 8)?;
        self.write_list(0x2000, 0x2008)?;
        self.read(DP_STATUS)?;
        self.write(DP_STATUS, 4)?;
        self.read(DP_STATUS)
    }

    // SYNC_FULL: the DP line and STATUS after the word that begins 0xE9.
    fn m11(&mut self) -> io::Result<()> {
        self.begin("\nM11")?;
        self.rdram[0x2000] = 0xE9;
        self.write_list(0x2000, 0x2008)?;
        self.dp_turns(1)?;
        self.rdram[0x2000] = 0;
        self.show(self.state.dp.line as u64)?;
        self.read(DP_STATUS)
    }

    // FLUSH.
    fn m12(&mut self) -> io::Result<()> {
        self.begin("\nM12")?;
        self.write_list(0x2000, 0x2018)?;
        self.fetch()?;
        self.write(DP_STATUS, 0x20)?;
        self.read(CURRENT)?;
        self.read(DP_STATUS)
    }
}

fn main(rt: HostRuntime) -> io::Result<()> {
    let mut machine = Machine {
        rt: &rt,
        state: power_up(),
        rdram: [0; 32768],
        dmem: [0; 4096],
        imem: [0; 4096],
    };
    machine.m1()?;
    machine.m2()?;
    machine.m3()?;
    machine.m4()?;
    machine.m5()?;
    machine.m6()?;
    machine.m7()?;
    machine.m8()?;
    machine.m9()?;
    machine.m10()?;
    machine.m11()?;
    machine.m12()?;
    println!(rt)
}
