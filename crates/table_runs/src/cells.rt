//! Checkpoint areas as they read.

use crate::images::push_net;
use base_model::OutOfMemory;
use case_table::{Text, bytes_of_hex, first_word};
use checkpoint_cell::{CellFault, Pending, Phase, Seen, barrier, due, load, peek};
use engine_core::settle;
use engine_model::BackFault;
use host_core::Failed;
use host_memory::MemoryHost;
use net_core::Net;
use std::alloc::Global;

fn push_seen(seen: Result<Seen, Failed>, out: &mut Text) {
    match seen {
        Ok(Seen::Empty) => out.push_str("empty"),
        Ok(
            Seen::Set {
                phase,
                made,
                deadline,
            },
        ) => {
            out.push_str(match phase {
                Phase::Applying => "applying ",
                Phase::Waiting => "waiting ",
            });
            out.push_count(made, " ");
            out.push_number(deadline);
        }
        Err(Failed) => out.push_str("failed"),
    }
}

// What is loaded, as the digits of its image.
fn push_loaded(alloc: Global, host: &mut MemoryHost, out: &mut Text) {
    match load(host, alloc) {
        Ok(Some(pending)) => push_net(alloc, &pending.net, out),
        Ok(None) => out.push_str("none"),
        Err(CellFault::Damaged) => out.push_str("damaged"),
        Err(CellFault::Failed) => out.push_str("failed"),
        Err(CellFault::OutOfMemory) => out.remember(false),
    }
}

/// Pushes what an area reads as, alone and behind a barrier, and what is loaded from it.
pub fn push_area(alloc: Global, digits: &str, out: &mut Text) -> Result<(), OutOfMemory> {
    let area = bytes_of_hex(alloc, digits)?;
    let mut host = MemoryHost::new(alloc, None, area, Vec::new(alloc));
    push_seen(peek(&mut host), out);
    out.push_str(", ");
    push_seen(barrier(&mut host), out);
    out.push_str(", ");
    push_loaded(alloc, &mut host, out);
    Ok(())
}

// The network that is saved in an area.
fn saved(alloc: Global, area: Vec<u8>) -> Result<Option<Net>, OutOfMemory> {
    let mut host = MemoryHost::new(alloc, None, area, Vec::new(alloc));
    match load(&mut host, alloc) {
        Ok(Some(Pending { net, .. })) => Ok(Some(net)),
        Err(CellFault::OutOfMemory) => Err(OutOfMemory),
        _ => Ok(None),
    }
}

fn push_settling(until: Result<Option<u64>, BackFault>, out: &mut Text) {
    match until {
        Ok(Some(until)) => {
            out.push_str("waits ");
            out.push_number(until);
        }
        Ok(None) => out.push_str("settled"),
        Err(BackFault::OutOfMemory) => out.remember(false),
        Err(_) => out.push_str("fault"),
    }
}

/// Pushes what settling answers over the network that is saved in an area, and what the area reads as then: `MOMENT DIGITS`.
pub fn push_settled(alloc: Global, case: &str, out: &mut Text) -> Result<(), OutOfMemory> {
    let (moment, digits) = first_word(case);
    let area = bytes_of_hex(alloc, digits)?;
    let net = saved(alloc, bytes_of_hex(alloc, digits)?)?;
    let mut host = MemoryHost::new(alloc, net, area, Vec::new(alloc));
    push_settling(settle(&mut host, alloc, number(moment)), out);
    out.push_str(", ");
    push_seen(peek(&mut host), out);
    Ok(())
}

fn number(word: &str) -> u64 {
    word.parse::<u64>().unwrap_or(0)
}

/// Pushes whether a change is due: `MADE DEADLINE MOMENT`.
pub fn push_due(case: &str, out: &mut Text) {
    let (made, rest) = first_word(case);
    let (deadline, moment) = first_word(rest);
    let is_due = due(number(made), number(deadline), number(moment));
    out.push_str(if is_due { "true" } else { "false" });
}
