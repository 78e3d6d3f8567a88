//! Where a test may hold a call.

/// Called by a delivery to a server under the server's lock, before the server acts. A program's gate does nothing.
pub trait Gate2 {
    /// A call is at this point, the number of the server whose lock it holds.
    fn pass(&self, point: u32);
}
