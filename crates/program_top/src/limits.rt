//! The numbers that what is promised of the program takes from the code.
ghost use Rattle.program_top.specs.Limits.{Inputs, Parts, Counts, FirstImage, Arguments, Refusals, Draws, Trials};

/// Supplies the numbers by which definitions name limits, defaults and refusals, each as the documents write it. It has no effect
/// at run time.
pub fn limit_laws()
    ensures inputs { Inputs }
    // Of a network, and of an image of version 1.
    ensures parts { Parts }
    ensures counts { Counts }
    ensures first_image { FirstImage }
    // Of the command line.
    ensures arguments { Arguments }
    // Of refused calls.
    ensures refusals { Refusals }
    // Of a workload.
    ensures draws { Draws }
    ensures trials { Trials }
{}
