// Ports.
ghost use Rattle.std.specs.Prelude.{◌≡◌, ◌≤◌};
ghost use Rattle.machine.specs.Ports as def;

use crate::State;

// The input and the output byte.
const IO: u16 = 0x18;
// The first and the last of the TLB's ports.
const FIRST_TLB: u16 = 0x80;

const LAST_TLB: u16 = 0x9e;
// IN gives the violation address, OUT switches the MMU.
const MMU: u16 = 0xa2;

const CAUSE: u16 = 0xa4;

const MISSED: u16 = 0xa6;

// An entry as its port shows it.
fn entry_shown(port: u16, entry: u32) -> u16
    ensures { result ≡ def.entry_shown port entry }
{
    if port % 4 == 0 {
        (entry / 65536) as u16
    } else {
        (entry % 65536) as u16
    }
}

// An entry after a write to its port.
fn entry_written(port: u16, entry: u32, v: u16) -> u32
    ensures { result ≡ def.entry_written port entry v }
{
    if port % 4 == 0 {
        u32::from(v % 256) * 65536 + entry % 65536
    } else {
        entry / 65536 * 65536 + u32::from(v / 32768 * 32768 + v % 8192)
    }
}

#[tactic(auto, unfolding(crate::specs::Ports::tlb_port))]
fn read_entry(tlb: [u32; 8], port: u16) -> u16
    requires { (def.first_tlb_port ≤ port) × (port ≤ def.last_tlb_port) }
    ensures { result ≡ def.tlb_port tlb port }
{
    if port % 2 == 0 {
        let k = (port - FIRST_TLB) / 4;
        return entry_shown(port, tlb[k as usize]);
    }
    0
}

#[tactic(auto, unfolding(crate::specs::Ports::tlb_after))]
fn write_entry(mut tlb: [u32; 8], port: u16, v: u16) -> [u32; 8]
    requires { (def.first_tlb_port ≤ port) × (port ≤ def.last_tlb_port) }
    ensures { result ≡ def.tlb_after tlb port v }
{
    if port % 2 == 0 {
        let k = ((port - FIRST_TLB) / 4) as usize;
        tlb[k] = entry_written(port, tlb[k], v);
    }
    tlb
}

impl State {
    // What IN gives where the port is no timer's.
    #[tactic(auto, unfolding(crate::specs::Ports::port_elsewhere, crate::specs::Ports::tlb_port))]
    fn port_elsewhere(self, port: u16) -> u16
        ensures { result ≡ def.port_elsewhere self.ports.input self.fault self.tlb port }
    {
        match port {
            IO => u16::from(self.ports.input),
            MMU => self.fault.violation,
            CAUSE => u16::from(self.fault.consume().given.cause),
            MISSED => u16::from(self.fault.missed),
            FIRST_TLB..=LAST_TLB => read_entry(self.tlb, port),
            _ => 0,
        }
    }

    // What IN gives.
    pub(crate) fn port_value(self, port: u16) -> u16
        ensures { result ≡ def.port_value self port }
    {
        self.timers.port_value(self.port_elsewhere(port), port)
    }

    // The state after IN.
    #[tactic(auto, unfolding(crate::specs::Ports::record_after_in))]
    pub(crate) fn port_in(self, port: u16) -> State
        ensures { result ≡ def.after_in self port }
    {
        let fault = if port == CAUSE {
            self.fault.consume().left
        } else {
            self.fault
        };
        State {
            fault,
            timers: self.timers.port_in(port),
            ..self
        }
    }

    // The state after OUT.
    #[tactic(auto, unfolding(crate::specs::Ports::output_after, crate::specs::Ports::mmu_after, crate::specs::Ports::tlb_after))]
    pub(crate) fn port_out(mut self, port: u16, v: u16) -> State
        ensures { result ≡ def.after_out self port v }
    {
        self.timers = self.timers.port_out(port, v);
        match port {
            IO => self.ports.output = (v % 256) as u8,
            MMU => self.mmu = v % 2 == 1,
            FIRST_TLB..=LAST_TLB => self.tlb = write_entry(self.tlb, port, v),
            _ => {}
        }
        self
    }
}
