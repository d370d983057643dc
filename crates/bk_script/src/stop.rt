// Why nothing was read.
#[derive(Drop)]
pub(crate) enum Stop {
    NoReading,
    NoMemory,
}
