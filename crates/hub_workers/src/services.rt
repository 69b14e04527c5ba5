//! The services of connections.

/// A maker of the services of connections.
pub trait MakeService<S> {
    /// The service of the connection of this number.
    fn make(&self, number: u64) -> S;
}
