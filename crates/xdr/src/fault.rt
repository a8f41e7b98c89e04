// What reading and writing are refused with.

/// No memory was left.
#[derive(Clone, Copy, Debug, PartialEq, Eq)]
pub struct NoMemory;

/// Why an item can't be read. Each place is where the item begins, in bytes from the message's start.
#[derive(Clone, Copy, Debug, PartialEq, Eq)]
pub enum XdrFault {
    /// The message ends within the item: in a number, in the bytes or in their padding.
    Short { place: usize },
    /// The word of a boolean is neither 0 nor 1 (RFC 4506 section 4.4).
    BadBool { place: usize },
    /// The length of an opaque is greater than its maximum (RFC 4506 section 4.10).
    TooLong { place: usize },
    /// The word of an enumeration names none of its values (RFC 4506 section 4.3). The readers of
    /// this crate never give it: it is for the readers of types that are made of these items.
    BadChoice { place: usize },
    /// Bytes are left behind the last item.
    Trailing { place: usize },
}
