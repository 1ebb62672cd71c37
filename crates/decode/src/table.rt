// The decoding table.
ghost use Rattle.std.specs.Prelude.{◌≡◌};
ghost use Rattle.decode.specs.Entry.{table_of};

// An entry for each first byte.
pub type Table = [u16; 256];

// The entry of a byte that is no instruction: mode 15, which is none. An entry of the constant table, which document 01 names, has
// 16 bits, and no place for an `Option`.
pub const UNKNOWN: u16 = 0x01e0;

// From the lowest bit of an entry up: the instruction's number (5 bits), the mode (4), the states (7).
static TABLE: Table = [
    0x0700, UNKNOWN, UNKNOWN, UNKNOWN, UNKNOWN, UNKNOWN, UNKNOWN, UNKNOWN, 0x0e01, 0x0e21, 0x0a41,
    0x0e61, 0x0881, 0x08a1, 0x0cc1, 0x0ce1, 0x0c02, 0x0c22, UNKNOWN, 0x0c62, 0x090f, UNKNOWN,
    0x0ac2, 0x0ae2, 0x0e03, 0x0e23, 0x0a43, 0x0e63, 0x0a83, 0x08a3, 0x0cc3, 0x0ce3, 0x0e04, 0x0e24,
    0x0a44, 0x0e64, 0x0a84, 0x08a4, 0x0cc4, 0x0ce4, 0x0e05, 0x0e25, 0x0a45, 0x0e65, 0x0a85, 0x08a5,
    0x0cc5, 0x0ce5, 0x0e06, 0x0e26, 0x0a46, 0x0e66, 0x0a86, 0x08a6, 0x0cc6, 0x0ce6, 0x0e07, 0x0e27,
    0x0a47, 0x0e67, 0x0a87, 0x08a7, 0x0cc7, 0x0ce7, 0x0e08, 0x0e28, 0x0a48, 0x0e68, 0x0a88, 0x08a8,
    0x0cc8, 0x0ce8, 0x1009, 0x1029, 0x0c49, 0x1069, 0x0c89, 0x0aa9, 0x0ec9, 0x0ee9, 0x720a, 0x722a,
    0x6e4a, 0x726a, 0x6e8a, 0x6caa, 0x70ca, 0x70ea, 0x920b, 0x922b, 0x8e4b, 0x926b, 0x8e8b, 0x8cab,
    0x90cb, 0x90eb, 0x920c, 0x922c, 0x8e4c, 0x926c, 0x8e8c, 0x8cac, 0x90cc, 0x90ec, UNKNOWN,
    UNKNOWN, UNKNOWN, UNKNOWN, UNKNOWN, UNKNOWN, UNKNOWN, UNKNOWN, UNKNOWN, UNKNOWN, UNKNOWN,
    UNKNOWN, UNKNOWN, UNKNOWN, UNKNOWN, UNKNOWN, UNKNOWN, UNKNOWN, UNKNOWN, UNKNOWN, UNKNOWN,
    UNKNOWN, UNKNOWN, UNKNOWN, 0x1010, 0x1030, 0x0c50, 0x1070, 0x0c90, 0x0ab0, 0x0ed0, 0x0ef0,
    0x1011, 0x1031, 0x0c51, 0x1071, 0x0c91, 0x0ab1, 0x0ed1, 0x0ef1, 0x1012, 0x1032, 0x0c52, 0x1072,
    0x0c92, 0x0ab2, 0x0ed2, 0x0ef2, 0x1013, 0x1033, 0x0c53, 0x1073, 0x0c93, 0x0ab3, 0x0ed3, 0x0ef3,
    0x0814, 0x0834, UNKNOWN, UNKNOWN, UNKNOWN, UNKNOWN, UNKNOWN, UNKNOWN, 0x0c15, 0x0c35, UNKNOWN,
    UNKNOWN, UNKNOWN, UNKNOWN, UNKNOWN, UNKNOWN, 0x0e16, UNKNOWN, UNKNOWN, UNKNOWN, UNKNOWN,
    UNKNOWN, 0x0cd6, UNKNOWN, 0x0c17, UNKNOWN, UNKNOWN, UNKNOWN, UNKNOWN, UNKNOWN, 0x0ad7, UNKNOWN,
    0x0b18, UNKNOWN, UNKNOWN, UNKNOWN, 0x0d19, UNKNOWN, UNKNOWN, UNKNOWN, UNKNOWN, UNKNOWN,
    UNKNOWN, UNKNOWN, UNKNOWN, UNKNOWN, UNKNOWN, UNKNOWN, 0x0d1a, UNKNOWN, UNKNOWN, UNKNOWN,
    0x131b, UNKNOWN, UNKNOWN, UNKNOWN, UNKNOWN, UNKNOWN, UNKNOWN, UNKNOWN, UNKNOWN, UNKNOWN,
    UNKNOWN, UNKNOWN, UNKNOWN, UNKNOWN, UNKNOWN, UNKNOWN, UNKNOWN, UNKNOWN, UNKNOWN, UNKNOWN,
    UNKNOWN, UNKNOWN, UNKNOWN, UNKNOWN, UNKNOWN, UNKNOWN, UNKNOWN, UNKNOWN, 0x191e, UNKNOWN,
    UNKNOWN, UNKNOWN, UNKNOWN, UNKNOWN, UNKNOWN, UNKNOWN, UNKNOWN, UNKNOWN, UNKNOWN, UNKNOWN,
    UNKNOWN, UNKNOWN, UNKNOWN, 0x0b1f,
];

// The table.
pub fn entries() -> &'static Table
    ensures { result.now ≡ table_of }
{
    &TABLE
}
