// The barrel of a winder: what winds and takes a notch, when the label is reached, what the input bit tells of it, and when it is over.
#![tactic(auto)]

ghost use Rattle.std.specs.Prelude.{◌≡◌, ◌≤◌};
ghost use Rattle.barrel.specs.Barrel as def;

// The notches that this output byte winds.
pub fn wound_by(output: u8) -> u32
    ensures { result ≡ def.wound_by output }
{
    u32::from(output % 2)
}

// The notches that the train takes at a tick, so many standing.
pub fn taken_at(rundown: u32, tick: u32, standing: u32) -> u32
    requires { 1 ≤ rundown }
    ensures { result ≡ def.taken_at rundown tick standing }
{
    u32::from(tick % rundown == 0 && 0 < standing)
}

// Whether the whole turns standing have reached the label.
pub fn reached(turns: u32, notches: u32, standing: u32) -> bool
    requires { 1 ≤ notches }
    ensures { result ≡ def.reached turns notches standing }
{
    turns <= standing / notches
}

// The input byte with this bit 0.
pub fn input_with(set: bool, input: u8) -> u8
    ensures { result ≡ def.input_with set input }
{
    input / 2 * 2 + u8::from(set)
}

// Whether more stand than the label has.
pub fn is_over(turns: u32, notches: u32, standing: u32) -> bool
    ensures { result ≡ def.is_over turns notches standing }
{
    u64::from(turns) * u64::from(notches) < u64::from(standing)
}

// The first tick over the label: the one found before, or this one, or 0 for none, as C gets it.
#[tactic(auto, unfolding(crate::specs::Barrel::first_over))]
pub fn first_over(before: u32, tick: u32, over: bool) -> u32
    ensures { result ≡ def.first_over before tick over }
{
    if before == 0 && over { tick } else { before }
}
