// Figures of document 01 that no theorem has, a line each, the arguments first.
#![tactic(auto)]

ghost use Rattle.std.specs.Prelude.{◌*◌, ◌<◌};
ghost use Rattle.meaning.specs.Limits.{word_width};
ghost use Rattle.meaning.specs.WellFormed.{LegalBits};
ghost use Rattle.shape.specs.Legal.{Legal};

use shape::vector_utils;
use std::io;
use std::io::Print;

fn show_root(rt: &impl Print, bits: u32, length: u32) -> io::Result<()>
    requires { Legal bits length }
{
    let height = shape::height(bits, length);
    let capacity = shape::root_max_capacity(bits, length);
    let full = shape::is_root_full(bits, length) as u32;
    println!(rt; "{bits} {length} {height} {capacity} {full}")
}

fn show_bucket(rt: &impl Print, bits: u32, index: u32, height: u32) -> io::Result<()>
    requires legal { LegalBits bits }
    requires shift { height * bits < word_width }
{
    let bucket = vector_utils::bucket(bits, index, height);
    println!(rt; "{bits} {index} {height} {bucket}")
}

fn main(rt: HostRuntime) -> io::Result<()> {
    for (bits, length) in [(5, 32768), (5, 1025), (1, 32768), (1, 32767)] {
        show_root(&rt, bits, length)?;
    }
    for (bits, index, height) in [
        (5, 32767, 2),
        (5, 1057, 2),
        (5, 1057, 1),
        (5, 1058, 0),
        (5, u32::MAX, 6),
        (1, 16384, 14),
        (1, 16384, 13),
    ] {
        show_bucket(&rt, bits, index, height)?;
    }
    Ok(())
}
