use am_universe::Kind;
use jiff::Timestamp;
use std::rt::Clock;

/// Returns the clock's instant, to the nanosecond, as the text of an instant. Fails with `Read` if
/// the clock cannot be read.
pub fn instant_now<R: Clock + AllocGlobal>(rt: &R) -> Result<String, Kind> {
    match Timestamp::now(rt) {
        Ok(now) => Ok(now.to_string(rt.alloc())?),
        Err(_) => Err(Kind::Read),
    }
}
