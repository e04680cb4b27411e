// The bench's view of one pool image: commands from standard input, a line for each on standard output.
// Every word that matters is answered by the pool's own calls; this program only reads numbers and prints answers.
#![tactic(auto)]

mod calls;
mod image;
mod input;
mod output;
mod pistons;
mod stop;

use calls::Bench;
use image::Image;
use input::Input;
use output::Output;
use std::io::Read;
use stop::Stop;

// The commands, one after the other; a run of more than 2^64 - 1 of them would end there.
fn run<R: Print + Eprint, I: Read>(bench: &mut Bench<R, I>) -> Result<(), Stop> {
    for _ in 0..u64::MAX {
        let Some(letter) = bench.input.letter() else {
            break;
        };
        bench.step(letter)?;
    }
    Ok(())
}

fn main(rt: HostRuntime) {
    let mut bench = Bench {
        input: Input {
            rt: &rt,
            from: &mut rt.stdin(),
        },
        output: Output { rt: &rt },
        pool: Image::new(),
        body: [0; 65536],
        bank: [0; 32],
    };
    if run(&mut bench) == Err(Stop::Unreadable) {
        let _ = bench.output.unreadable();
    }
}
