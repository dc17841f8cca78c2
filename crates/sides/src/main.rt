// The engine's public operations on both sides of each line that the rules draw. `stdin` has the cases, and `stdout` what each must answer.
#![tactic(auto)]

mod desks;
mod events;
mod kinds;
mod places;
mod records;
mod stage;
mod telling;

use stage::Stage;
use std::io;

fn main(rt: HostRuntime) -> io::Result<()> {
    let mut stage = Stage::new(rt.alloc());
    for line in rt.lines(rt.alloc()) {
        stage.take(&rt, line?.as_str())?;
    }
    Ok(())
}
