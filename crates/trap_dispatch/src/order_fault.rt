/// Why an interrupt gets no order (RAPID Instructions: ISignalDI, ISignalDO, IPers).
#[derive(Clone, Copy, Debug, PartialEq, Eq)]
pub enum OrderFault {
    /// The number is not connected.
    Unknown,
    /// The interrupt already has an order.
    Already,
}
