// Instruction words: the decoding table, the first word, the operand.
#![tactic(auto)]

pub mod code;
mod opcode;
mod operands;
mod properties;
pub mod register;
mod table;

pub use opcode::first_word;
pub use operands::{decoded, frame_offset};
pub use properties::NO_CONDITION;
pub use table::{Table, entries};

// One of eight operand kinds with its own data, or none.
#[derive(Clone, Copy)]
pub enum Operand {
    // The word at a displacement; of a jump, CALL, IN or OUT the displacement itself.
    Direct(u16),
    // The same at a displacement plus a register.
    Indexed(u16, u8),
    Immediate(u16),
    // The word at FP plus this: twice D4, -16 to 14.
    Frame(i16),
    Register(u8),
    // A four-bit immediate, -8 to 7.
    Short(i16),
    // The word at the address in a register; of IN or OUT that address itself.
    Indirect(u8),
    // The byte at the address in a register.
    ByteIndirect(u8),
    // None: in an `Option` each match would be one within another.
    Nothing,
}

// Who may use an instruction.
#[derive(Clone, Copy)]
pub enum Privilege {
    Anyone,
    // P=1 or I=1.
    Ports,
    // P=1.
    Kernel,
}

// The data access of an instruction.
#[derive(Clone, Copy)]
pub enum DataAccess {
    None,
    // No access: FLAG's value is the source.
    Flag,
    // The operand is read.
    Source,
    // Rd is written to the operand's place.
    Destination,
    // A word is written below SP.
    Push,
    // The word at SP is read.
    Pop,
    // The words at SP and at SP+2 are read.
    PopTwo,
}

// How an instruction goes on.
#[derive(Clone, Copy)]
pub enum Flow {
    // At the following instruction.
    Next,
    // At the operand's address if the condition holds.
    Jump,
    // At the operand's address.
    Call,
    // At the word that was read.
    Return,
    // At the second word that was read.
    Resume,
    // In the kernel.
    Trap,
    // At the following instruction, unless the divisor is 0.
    Divide,
    // At the following instruction, after more states for each place.
    Shift,
}

// A decoded instruction.
#[derive(Clone, Copy)]
pub struct Instruction {
    pub code: u8,
    pub rd: u8,
    pub operand: Operand,
    // Its states, a shift's without its places and a jump's where it is not taken.
    pub cost: u8,
    pub access: DataAccess,
    pub flow: Flow,
}

// What the first word of a defined instruction says: its number, its mode (8 where it has no operand), its two fields, whether a second word
// follows, its states, its privilege, its data access and how it goes on. The mode is the number that the first byte has,
// as document 01 lists them: an enum of it would be `Operand` without what each case holds.
#[derive(Clone, Copy)]
pub struct Shape {
    pub code: u8,
    pub mode: u8,
    pub rd: u8,
    pub rx: u8,
    pub second: bool,
    pub cost: u8,
    pub privilege: Privilege,
    pub access: DataAccess,
    pub flow: Flow,
}
