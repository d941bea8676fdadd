//! The command that prints the network.
ghost use Rattle.std.specs.Prelude.{◌≡◌, ℕ, Ok, option_map};
ghost use Rattle.top_model.specs.Orders.{showing};
ghost use Rattle.top_model.specs.Said.{printed};
ghost use Rattle.command_laws.specs.Carried.{Carried};
ghost use Rattle.command_laws.specs.Looked.{ChangesNothing, LooksAs, TextOf};

use crate::look::look;
use answer_text::{shown_text, tell_done, tell_refused};
use base_model::{OutOfMemory, Str};
use host_core::{Host, Sink, Source};
use net_core::Net;
use std::alloc::Global;
use top_model::{Cause, Report};

// The name of the one link that is asked for.
fn name_of(only: &Option<Str>) -> Option<&[u8]>
    ensures { option_map (λ name. name.now) result ≡ only.now }
{
    match only {
        Some(name) => Some(name.as_str().as_bytes()),
        None => None,
    }
}

// The printed state of a network.
pub(crate) fn printed_of(
    alloc: Global,
    net: &Net,
    only: &Option<Str>,
    json: bool,
) -> Result<Vec<u8>, Cause>
    ensures { TextOf (λ net. Ok (printed only.now json net)) net.now result }
{
    match shown_text(alloc, net, name_of(only), json) {
        Ok(text) => Ok(text),
        Err(OutOfMemory) => Err(Cause::OutOfMemory),
    }
}

// The printed state of the network that is found.
fn printed<H: Host>(
    alloc: Global,
    only: &Option<Str>,
    json: bool,
    host: &mut H,
) -> Result<Vec<u8>, Cause>
    ensures text { LooksAs H.tells H.honest (λ net. Ok (printed only.now json net)) (H.told host.old) (H.told host.new) result }
    ensures looks { ChangesNothing H.tells (H.told host.old) (H.told host.new) }
{
    match look(alloc, host) {
        Ok(net) => printed_of(alloc, &net, only, json),
        Err(cause) => Err(cause),
    }
}

/// `show`: prints the network that the host gives, or the one link of the name `only`, in YAML or as a line of JSON, and
/// answers the report. Nothing is changed.
///
/// It answers `HostFault` where the dump fails, `Damaged` where the kernel area holds no network, `OutOfMemory`, and
/// `WriteFault` where a sink fails.
pub fn show_run<H: Host, S: Source, W: Sink>(
    alloc: Global,
    only: &Option<Str>,
    json: bool,
    host: &mut H,
    out: &mut W,
    err: &mut W,
) -> Report
    ensures { (now : ℕ) → Carried H.Host S.Source W.Sink (showing only.now json) now host.old host.new out.old out.new err.old err.new result }
{
    match printed(alloc, only, json, host) {
        Ok(text) => tell_done(b"", text.as_slice(), out, err),
        Err(cause) => tell_refused(b"", cause, out, err),
    }
}
