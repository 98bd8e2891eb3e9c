// The traps by their names in 002, Table 7, with class and trap identification number (TIN). Those of class 4 are document 01's.

ghost use Rattle.std.specs.Prelude.{◌≡◌};
ghost use Rattle.events.specs.Traps.{traps, SYS};

#[derive(Clone, Copy)]
pub struct Trap {
    pub class: u8,
    pub tin: u8,
}

// privileged instruction
pub const PRIV: Trap = Trap { class: 1, tin: 1 };
// memory protection: read, write, execution and peripheral access
pub const MPR: Trap = Trap { class: 1, tin: 2 };

pub const MPW: Trap = Trap { class: 1, tin: 3 };

pub const MPX: Trap = Trap { class: 1, tin: 4 };

pub const MPP: Trap = Trap { class: 1, tin: 5 };
// global register write protection
pub const GRWP: Trap = Trap { class: 1, tin: 7 };
// data address alignment
pub const ALN: Trap = Trap { class: 2, tin: 4 };
// free context list depleted
pub const FCD: Trap = Trap { class: 3, tin: 1 };
// call depth overflow and underflow
pub const CDO: Trap = Trap { class: 3, tin: 2 };

pub const CDU: Trap = Trap { class: 3, tin: 3 };
// context list underflow, context type, nesting
pub const CSU: Trap = Trap { class: 3, tin: 5 };

pub const CTYP: Trap = Trap { class: 3, tin: 6 };

pub const NEST: Trap = Trap { class: 3, tin: 7 };
// no record begins at PC
pub const CODE: Trap = Trap { class: 4, tin: 1 };
// data not wholly in one window
pub const DATA: Trap = Trap { class: 4, tin: 2 };
// overflow, sticky overflow
pub const OVF: Trap = Trap { class: 5, tin: 1 };

pub const SOVF: Trap = Trap { class: 5, tin: 2 };

// The traps above. A constant has no contract of its own: this one holds each to its definition.
pub fn named() -> [Trap; 17]
    ensures { result ≡ traps }
{
    [
        PRIV, MPR, MPW, MPX, MPP, GRWP, ALN, FCD, CDO, CDU, CSU, CTYP, NEST, CODE, DATA, OVF, SOVF,
    ]
}

// The system call with a number: its low 8 bits are the TIN.
pub fn system_call(number: u32) -> Trap
    ensures { result ≡ SYS number }
{
    Trap {
        class: 6,
        tin: (number % 0x100) as u8,
    }
}
