//! Who carries out the kernel's calls.
ghost use Rattle.std.specs.Prelude.{◌≡◌, ℕ, Ok, Err, OnOk, OnErr};
ghost use Rattle.kernel_model.specs.Kernel.{step};
ghost use Rattle.kernel_model.specs.declared.fault.StepFault.TheVariants.{Refused};

use crate::fault::StepFault;
use net_core::Net;
use net_model::Call;

/// Whoever carries out the kernel's calls on a network, so that those who make calls don't wait for its proof.
pub trait Steps {
    /// Carries out a call, in place.
    fn step(net: &mut Net, call: &Call) -> Result<(), StepFault>
        // The network is the one after the call.
        ensures done { OnOk result (step call.now net.old ≡ Ok net.new) }
        // The number is that of the least refusal.
        ensures refused { (k : ℕ) → result ≡ Err (Refused k) → step call.now net.old ≡ Err k }
        // After either fault the network is as it was.
        ensures unchanged { OnErr result (net.new ≡ net.old) };
}
