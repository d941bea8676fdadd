//! Images.

use base_model::OutOfMemory;
use case_table::{Text, bytes_of_hex, push_hex};
use net_core::Net;
use net_image::{ImageFault, decode, encode};
use std::alloc::Global;

/// Pushes the digits of the image of a network.
pub fn push_net(alloc: Global, net: &Net, out: &mut Text) {
    match encode(alloc, net) {
        Ok(image) => push_hex(&image, out),
        Err(OutOfMemory) => out.remember(false),
    }
}

/// Pushes the image of the network that an image holds.
pub fn push_image(alloc: Global, digits: &str, out: &mut Text) -> Result<(), OutOfMemory> {
    match decode(alloc, &bytes_of_hex(alloc, digits)?) {
        Ok(net) => push_net(alloc, &net, out),
        Err(ImageFault::Damaged) => out.push_str("damaged"),
        Err(ImageFault::OutOfMemory) => out.remember(false),
    }
    Ok(())
}
