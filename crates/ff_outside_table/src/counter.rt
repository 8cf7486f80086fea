//! The counter of steps, of which a program holds no byte.
ghost use Rattle.std.specs.Prelude.{◌≡◌, ◌<◌};

use ff_contract::Steps;
use std::io;
use std::marker::Brand;
use std::sync::ledger::{Blank, Ledger};

fn counted_to_three<L: Ledger>(blank: Blank) -> Steps<L>
    requires name { blank.name ≡ L.name }
    requires parts { blank.parts ≡ L.parts }
    requires some { 0 < blank.parts }
    ensures { result ≡ 3 }
{
    let mut steps = Steps::new(blank);
    steps.tick();
    steps.tick();
    steps.tick();
    steps
}

fn bytes_of_a_counter<L: Ledger>(blank: Blank) -> usize
    requires name { blank.name ≡ L.name }
    requires parts { blank.parts ≡ L.parts }
    requires some { 0 < blank.parts }
{
    let _steps: Steps<L> = counted_to_three(blank);
    size_of::<Steps<L>>()
}

/// Prints how many bytes a counter takes.
pub fn show(rt: &HostRuntime) -> io::Result<()> {
    let bytes = bytes_of_a_counter::<Brand>(Blank::new(1));
    println!(rt; "## A counter of steps")?;
    println!(rt; "a counter that was ticked three times takes {bytes} bytes")
}
