//! The devices, and the draws of their numbers.
ghost use Rattle.std.specs.Prelude.{◌≡◌, ◌<◌, ◌≤◌, IfOk};
ghost use Rattle.scenario_model.specs.declared.device.TheConstants.{DRAW_MODULUS, MAX_DEVICES};
ghost use Rattle.scenario_model.specs.Draws.{next_draw, devices};

use base_model::OutOfMemory;
use scenario_model::{
    DRAW_FACTOR, DRAW_MODULUS, DRAW_STEP, Device, MAX_DEVICES, METRICS, VLAN_IDS,
};
use std::alloc::Global;

// The draw behind this one.
fn next_draw(x: u32) -> u32
    requires { x < DRAW_MODULUS }
    ensures next { result ≡ next_draw x }
    ensures below { result < DRAW_MODULUS }
{
    (DRAW_FACTOR * x + DRAW_STEP) % DRAW_MODULUS
}

/// So many devices, in order, each with the numbers that are drawn for it.
pub fn devices(alloc: Global, n: u32, seed: u32) -> Result<Vec<Device>, OutOfMemory>
    requires { n ≤ MAX_DEVICES }
    ensures { IfOk result (λ made. made.items ≡ devices seed n) }
{
    let mut made = Vec::new(alloc);
    let mut last = seed % DRAW_MODULUS;
    for before in 0..n {
        let drawn = next_draw(last);
        last = next_draw(drawn);
        made.push(Device {
            number: (before + 1) as u8,
            id: (drawn % VLAN_IDS) as u16,
            metric: last % METRICS,
        })?;
    }
    Ok(made)
}
