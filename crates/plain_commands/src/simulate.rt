//! The command that tries out calls on a copy of the network.
ghost use Rattle.std.specs.Prelude.{◌≡◌, ℕ};
ghost use Rattle.top_model.specs.Machine.{print_simulated, simulated};
ghost use Rattle.top_model.specs.Orders.{simulating};
ghost use Rattle.command_laws.specs.Carried.{Carried};
ghost use Rattle.command_laws.specs.Looked.{ChangesNothing, LeadsTo, LooksAs, TextOf};

use crate::look::look;
use crate::show::printed_of;
use answer_text::{tell_done, tell_refused};
use host_core::{Host, Sink, Source};
use kernel_step::{StepFault, step};
use net_core::Net;
use net_model::Call;
use std::alloc::Global;
use top_model::{Cause, Report};

// The network that calls lead to, one after the other, up to the first that is refused.
fn after_calls(from: Net, calls: &[Call]) -> Result<Net, Cause>
    ensures { LeadsTo calls.now from result }
{
    let mut net = from;
    for (i, call) in calls.iter().enumerate() {
        match step(&mut net, call) {
            Ok(()) => {}
            Err(StepFault::Refused(number)) => {
                return Err(Cause::CallRefused(i as u64 + 1, number));
            }
            Err(StepFault::OutOfMemory) => return Err(Cause::OutOfMemory),
        }
    }
    Ok(net)
}

// The printed state of the network that the calls lead to.
fn simulated_of(alloc: Global, net: Net, calls: &[Call]) -> Result<Vec<u8>, Cause>
    ensures { TextOf (λ net. print_simulated (simulated 1 calls.now net)) net result }
{
    match after_calls(net, calls) {
        Ok(net) => printed_of(alloc, &net, &None, false),
        Err(cause) => Err(cause),
    }
}

// The same from the network that is found.
fn simulated<H: Host>(alloc: Global, calls: &[Call], host: &mut H) -> Result<Vec<u8>, Cause>
    ensures text { LooksAs H.tells H.honest (λ net. print_simulated (simulated 1 calls.now net))
        (H.told host.old) (H.told host.new) result }
    ensures looks { ChangesNothing H.tells (H.told host.old) (H.told host.new) }
{
    match look(alloc, host) {
        Ok(net) => simulated_of(alloc, net, calls),
        Err(cause) => Err(cause),
    }
}

/// `simulate`: prints the network that the calls lead to from the one that the host gives, and answers the report. Nothing
/// is changed: the calls are tried out on a copy.
///
/// It answers `CallRefused` with the place of the first call that is refused, counted from 1, and its number of refusal, and
/// `HostFault`, `Damaged`, `OutOfMemory` and `WriteFault` as `show_run` does.
pub fn simulate_run<H: Host, S: Source, W: Sink>(
    alloc: Global,
    calls: &[Call],
    host: &mut H,
    out: &mut W,
    err: &mut W,
) -> Report
    ensures { (now : ℕ) → Carried H.Host S.Source W.Sink (simulating calls.now) now
        host.old host.new out.old out.new err.old err.new result }
{
    match simulated(alloc, calls, host) {
        Ok(text) => tell_done(b"", text.as_slice(), out, err),
        Err(cause) => tell_refused(b"", cause, out, err),
    }
}
