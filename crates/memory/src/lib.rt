// Memory, by physical address.
#![tactic(auto)]

ghost use Rattle.std.specs.Prelude.{◌≡◌};
ghost use Rattle.memory.specs.Memory as def;

use word::Width;

// 64 KiB, by physical address.
pub type Memory = [u8; 65536];

// What an instruction stores: a value of a width at a physical address.
#[derive(Clone, Copy)]
pub struct Store {
    pub width: Width,
    pub address: u16,
    pub value: u16,
}

fn byte_at(mem: &Memory, a: u16) -> u16
    ensures { result ≡ def.byte_at mem.now a }
{
    u16::from(mem[a as usize])
}

pub fn word_at(mem: &Memory, a: u16) -> u16
    ensures { result ≡ def.word_at mem.now a }
{
    u16::from_be_bytes([mem[a as usize], mem[word::plus(a, 1) as usize]])
}

// A byte or a word.
pub fn read(mem: &Memory, width: Width, a: u16) -> u16
    ensures { result ≡ def.read_at width mem.now a }
{
    match width {
        Width::Byte => byte_at(mem, a),
        Width::Word => word_at(mem, a),
    }
}

fn store_byte(mem: &mut Memory, a: u16, v: u16)
    ensures { mem.new ≡ def.store_byte mem.old a v }
{
    mem[a as usize] = (v % 256) as u8;
}

pub fn store_word(mem: &mut Memory, a: u16, v: u16)
    ensures { mem.new ≡ def.store_word mem.old a v }
{
    let [upper, lower] = v.to_be_bytes();
    mem[a as usize] = upper;
    mem[word::plus(a, 1) as usize] = lower;
}

fn write(mem: &mut Memory, width: Width, a: u16, v: u16)
    ensures { mem.new ≡ def.write_at width mem.old a v }
{
    match width {
        Width::Byte => store_byte(mem, a, v),
        Width::Word => store_word(mem, a, v),
    }
}

// An instruction's store, if it has one.
#[tactic(auto, unfolding(crate::specs::Memory::stored))]
pub fn make_store(mem: &mut Memory, store: Option<Store>)
    ensures { mem.new ≡ def.stored store mem.old }
{
    if let Some(store) = store {
        write(mem, store.width, store.address, store.value);
    }
}
