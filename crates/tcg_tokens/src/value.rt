//! What token streams carry.

use basics::Bytes;

/// A value in the arguments of a call or the results of a reply.
#[derive(Debug, Drop)]
pub enum Value {
    /// A number.
    Number(u64),
    /// Bytes: an atom of the byte form, as a UID or a PIN.
    Bytes(Bytes),
    /// A list of values.
    List(Vec<Value>),
    /// A name and its value, in one room. The name is a number or bytes where the value can be written.
    Named(Box<(Value, Value)>),
}

/// The call of a method.
#[derive(Debug, Drop)]
pub struct Call {
    /// The UID of the object, the highest byte first.
    pub object: [u8; 8],
    /// The UID of the method, the highest byte first.
    pub method: [u8; 8],
    pub args: Vec<Value>,
    /// The three numbers of the status list. A reader of calls need not look at them.
    pub status: [u64; 3],
}

/// What one stream of tokens says.
#[derive(Debug, Drop)]
pub enum Item {
    Call(Call),
    /// The reply to a call: its results, and the status code of the method with two numbers that are zero.
    Reply {
        results: Vec<Value>,
        status: [u64; 3],
    },
    /// The session ends.
    EndSession,
    /// A transaction begins, with its status.
    Begin(u64),
    /// A transaction ends, with its status: 0 commits it, any other number aborts it.
    End(u64),
}
