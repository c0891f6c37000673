// The calls that take the state alone.
ghost use Rattle.std.specs.Prelude.{◌≡◌};
ghost use Rattle.machine.specs.Sound.{power_up, sound};
ghost use Rattle.machine.specs.Calls.{read_register, write_register, tick, break, acknowledge};
ghost use Rattle.machine.specs.Turns.{consumer_turn};
ghost use Rattle.host.specs.States.{decoded, encoded, handed};

use crate::states::handed;
use host::{HostOutcome, HostState};
use machine::State;

#[unsafe(no_mangle)]
pub extern "C" fn ofersky_power_up() -> HostState
    ensures { result ≡ encoded power_up }
{
    HostState::from(checks::power_up())
}

#[unsafe(no_mangle)]
pub extern "C" fn ofersky_is_sound(s: HostState) -> bool
    ensures { result ≡ sound (decoded s) }
{
    checks::is_sound(State::from(s))
}

#[unsafe(no_mangle)]
pub extern "C" fn ofersky_read_register(s: HostState, address: u32) -> HostOutcome
    ensures { result ≡ handed s (read_register (decoded s) address) }
{
    handed(s, access::read_register(State::from(s), address))
}

#[unsafe(no_mangle)]
pub extern "C" fn ofersky_write_register(s: HostState, address: u32, value: u32) -> HostOutcome
    ensures { result ≡ handed s (write_register (decoded s) address value) }
{
    handed(s, access::write_register(State::from(s), address, value))
}

#[unsafe(no_mangle)]
pub extern "C" fn ofersky_tick(s: HostState, n: u32) -> HostOutcome
    ensures { result ≡ handed s (tick (decoded s) n) }
{
    handed(s, access::tick(State::from(s), n))
}

#[unsafe(no_mangle)]
pub extern "C" fn ofersky_sp_break(s: HostState) -> HostOutcome
    ensures { result ≡ handed s (break (decoded s)) }
{
    handed(s, access::sp_break(State::from(s)))
}

#[unsafe(no_mangle)]
pub extern "C" fn ofersky_acknowledge(s: HostState) -> HostOutcome
    ensures { result ≡ handed s (acknowledge (decoded s)) }
{
    handed(s, access::acknowledge(State::from(s)))
}

#[unsafe(no_mangle)]
pub extern "C" fn ofersky_consumer_turn(s: HostState) -> HostOutcome
    ensures { result ≡ handed s (consumer_turn (decoded s)) }
{
    handed(s, engines::consumer_turn(State::from(s)))
}
