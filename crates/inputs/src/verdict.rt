// Why an input is refused, with document 01's number and place.

ghost use Rattle.std.specs.Prelude.{◌≡◌};
ghost use Rattle.inputs.specs.Verdict.{number_of, fault_of, image_refusal, lists_refusal};

use image::table::ImageFault;
use lists::ListFault;

// The rule at fault: the entry of a table, counted from 1 (0 for the count), the index of a record over all bodies.
#[derive(Clone, Copy)]
pub enum Refusal {
    Window,
    Overlap,
    Table(u32),
    Record(u32),
    OddPc,
    LinkOutside,
    MetAgain,
}

// Rules 2 and 3.
impl From<ImageFault> for Refusal {
    ghost from_gives = { λ fault refusal. refusal ≡ image_refusal fault };

    fn from(fault: ImageFault) -> Refusal {
        match fault {
            ImageFault::Table(entry) => Refusal::Table(entry),
            ImageFault::Record(index) => Refusal::Record(index),
        }
    }
}

// Rules 5 and 6.
impl From<ListFault> for Refusal {
    ghost from_gives = { λ fault refusal. refusal ≡ lists_refusal fault };

    fn from(fault: ListFault) -> Refusal {
        match fault {
            ListFault::LinkOutside => Refusal::LinkOutside,
            ListFault::MetAgain => Refusal::MetAgain,
        }
    }
}

// The number of the rule.
pub fn number(r: Refusal) -> u32
    ensures { result ≡ number_of r }
{
    match r {
        Refusal::Window => 1,
        Refusal::Overlap => 13,
        Refusal::Table(_) => 2,
        Refusal::Record(_) => 3,
        Refusal::OddPc => 4,
        Refusal::LinkOutside => 5,
        Refusal::MetAgain => 6,
    }
}

// The place of the fault.
pub fn fault(r: Refusal) -> u32
    ensures { result ≡ fault_of r }
{
    match r {
        Refusal::Window => 0,
        Refusal::Overlap => 0,
        Refusal::Table(entry) => entry,
        Refusal::Record(index) => index,
        Refusal::OddPc => 0,
        Refusal::LinkOutside => 0,
        Refusal::MetAgain => 0,
    }
}
