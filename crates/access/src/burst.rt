// Several registers are written in one call.
ghost use Rattle.std.specs.Prelude.{◌≡◌};
ghost use Rattle.machine.specs.Refusals.{number_given};
ghost use Rattle.bursts.specs.Bursts.{burst_refusal, writes_from, BurstGives};

use crate::addressed::write;
use checks::{declined, ending, register_at, state_refusal};
use machine::{Outcome, Refusal, State};

// Why a burst is declined before its first pair.
#[tactic(auto, unfolding(bursts::specs::Bursts::burst_refusal))]
fn burst_refusal(s: State, addresses: &[u32], values: &[u32]) -> Result<(), Refusal>
    ensures { number_given result ≡ burst_refusal s addresses.now values.now }
{
    if addresses.len() != values.len() || addresses.len() > 64 {
        return Err(Refusal::BurstLength);
    }
    state_refusal(s)
}

// Writes one pair after the other, up to the first that is refused. A write keeps a sound state
// sound, so the state is not tested again.
fn write_all(mut s: State, addresses: &[u32], values: &[u32]) -> Outcome
    requires { burst_refusal s addresses.now values.now ≡ 0 }
    ensures { result ≡ writes_from 0 addresses.now values.now s }
{
    let mut count: u32 = 0;
    for (a, v) in addresses.iter().zip(values) {
        match register_at(*a) {
            Ok(register) => write(&mut s, register, *v),
            Err(e) => return ending(s, Refusal::from(e).into(), count),
        }
        count += 1;
    }
    ending(s, 0, count)
}

// Writes up to 64 values, each to the register at its address or a mirror of it. Refusals: 11, 4; then 10 and 5 of a pair, which end the
// call and keep what the pairs before it did.
pub fn write_registers(s: State, addresses: &[u32], values: &[u32]) -> Outcome
    ensures { BurstGives s addresses.now values.now result addresses.exit.now values.exit.now }
{
    match burst_refusal(s, addresses, values) {
        Ok(()) => write_all(s, addresses, values),
        Err(why) => declined(s, why.into()),
    }
}
