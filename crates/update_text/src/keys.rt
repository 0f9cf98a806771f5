// How many lines a text has.
pub(crate) const LINES: usize = 11;

// The keys of the lines, in their order.
pub(crate) const KEYS: [&[u8]; LINES] = [
    b"place=", b"number=", b"a0=", b"a1=", b"a2=", b"a3=", b"a4=", b"a5=", b"a6=", b"a7=", b"seal=",
];
