// A wait of ten milliseconds.
use std::rt::Clock;
use std::thread;
use std::time::Duration;

pub fn nap(rt: &impl Clock) {
    thread::sleep(rt, Duration::from_millis(10));
}
