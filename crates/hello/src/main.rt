//! Two threads and a channel: one sends the numbers up to ten, the other prints what comes.
#![tactic(auto)]

use async_channel::{EventIds, bounded};
use std::thread;

fn main(rt: HostRuntime) -> anyhow::Result<()> {
    let mut ids = EventIds::new(); // one for all channels of a program
    let (sender, receiver) = bounded(rt, rt.alloc(), 3, &mut ids)?;
    let send = move || (1..11u64).try_for_each(|number| sender.send_blocking(number));
    let show = move || {
        for number in receiver.iter() {
            println!(&rt; "{}", number?)?;
        }
        Ok(())
    };
    let (sent, shown) = thread::join(&rt, send, show);
    sent?;
    shown
}
