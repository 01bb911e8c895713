/// What a slot or a register may hold.
#[derive(Clone, Copy, Debug, PartialEq, Eq)]
pub enum Value {
    /// No object.
    Nil,
    /// A number.
    Number(u32),
    /// The object whose header has this address. An object's address is below 16384.
    Reference(u32),
}
